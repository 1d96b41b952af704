//! The commands of Virtual Wires: what they read, what they write, and how they end. In the field: the driver of a
//! compiler.
#![tactic(auto)]

mod answer;
mod check;
mod commands;
mod demo;
mod emit;
mod grade;
mod help;
mod latches;
mod nets;
mod plan;
mod replay;
mod replay_wave;
mod report;
mod resume;
mod run;
mod save;
mod sim;
mod wave;

pub use commands::{alone, virtual_wires};
pub use vw_courses::{File, Reason, Unfinished};
pub use vw_statuses::{
    call_statuses, check_statuses, demo_statuses, emit_statuses, emitted_boards_show_designs,
    grade_statuses, headline, help_statuses, nets_statuses, pieces_join, plan_statuses, promises,
    replay_statuses, replay_wave_statuses, replayed_waves_show_designs, replays_of_designs_join,
    report_statuses, resume_statuses, run_statuses, save_statuses, sim_statuses, triggers_end_runs,
    unused_links_stay, usage_statuses, version_statuses, wave_statuses, waves_show_designs,
    wrong_words_have_their_place,
};
