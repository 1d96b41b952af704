//! What drives the nets of a design, by numbers: what first claims each name of a model, to which of these names the
//! items read and bind, and so the driver of each net. In the field: the resolution of nets through the hierarchy.
#![tactic(auto)]

mod claim;
mod claimed;
mod drivers;
mod firsts;
mod gather_claims;
mod gather_names;
mod item_numbers;
mod led;
mod model_claims;
mod model_names;
mod model_outputs;
mod outputs;
mod placed;
mod ports;
mod reads;
mod source;
mod tables;

pub use claim::{Claim, RepeatedClaim};
pub use drivers::Drivers;
pub use firsts::Firsts;
pub use gather_claims::claims_of;
pub use gather_names::names_of;
pub use item_numbers::in_32_bits;
pub use model_claims::ModelClaims;
pub use model_names::{ModelNames, PlacedNames, Way};
pub use model_outputs::{Outputs, output_sets};
pub use source::Source;
pub use tables::Tables;
