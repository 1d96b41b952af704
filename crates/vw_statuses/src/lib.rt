//! What each status of a command says, as laws on the courses of commands: when it comes, what it means, and what it
//! leaves. In the field: postconditions, by exit status.
#![tactic(auto)]

mod statuses;

pub use statuses::{
    call_statuses, check_statuses, demo_statuses, emit_statuses, emitted_boards_show_designs,
    grade_statuses, headline, help_statuses, nets_statuses, pieces_join, plan_statuses, promises,
    replay_statuses, replay_wave_statuses, replayed_waves_show_designs, replays_of_designs_join,
    report_statuses, resume_statuses, run_statuses, save_statuses, sim_statuses, triggers_end_runs,
    unused_links_stay, usage_statuses, version_statuses, wave_statuses, waves_show_designs,
    wrong_words_have_their_place,
};
