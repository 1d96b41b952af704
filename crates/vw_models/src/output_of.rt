use vw_outside::Name;

/// An output of a model that is at fault.
#[derive(Drop)]
pub struct OutputOf {
    /// The name of the model.
    pub model: Name,
    /// The name of the output.
    pub output: Name,
}
