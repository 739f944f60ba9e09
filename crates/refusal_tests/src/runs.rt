//! The runs, each as a test. With ample memory none of their calls may be
//! refused. A driver refuses one allocation of a run, and so one call, or two.

use crate::refusals::Refusals;
use crate::{
    commits, editors, files, keeping, onto, pools, ropes, saved, scripts, searches, sessions,
    tools, words,
};
use std::alloc::AllocGlobal;
use std::process::Abort;

/// Each run: no call is refused.
fn all_runs<A: AllocGlobal + Abort>(rt: &A, refusals: &mut Refusals) {
    pools::worked_pool(rt, refusals);
    pools::handed_pool(rt, refusals);
    ropes::eight_leaves(rt, refusals);
    ropes::short_literals(rt, refusals);
    ropes::merged_last_literals(rt, refusals);
    ropes::parts_of_five_bytes(rt, refusals);
    ropes::last_literals_grow(rt, refusals);
    ropes::deepest_joined(rt, refusals);
    ropes::deepest_cut(rt, refusals);
    ropes::deepest_appended(rt, refusals);
    ropes::copied_store(rt, refusals);
    searches::three_leaves(rt, refusals);
    files::five_bytes(rt, refusals);
    files::row_of_bytes(rt, refusals);
    sessions::one_insert(rt, refusals);
    sessions::three_inserts(rt, refusals);
    sessions::paste_into_itself(rt, refusals);
    sessions::doublings(rt, refusals);
    sessions::fill_of_the_limit(rt, refusals);
    sessions::three_changes(rt, refusals);
    sessions::added_source(rt, refusals);
    saved::taken_up(rt, refusals);
    scripts::lines(rt, refusals);
    scripts::image(rt, refusals);
    scripts::images_behind(rt, refusals);
    scripts::logged(rt, refusals);
    scripts::blamed(rt, refusals);
    scripts::served(rt, refusals);
    commits::committed(rt, refusals);
    commits::committed_anew(rt, refusals);
    editors::undo_then_type(rt, refusals);
    editors::cut_and_pasted(rt, refusals);
    editors::edited(rt, refusals);
    editors::run_again(rt, refusals);
    keeping::played_keys(rt, refusals);
    keeping::resumed(rt, refusals);
    keeping::edited_kept(rt, refusals);
    onto::edited_onto(rt, refusals);
    onto::edited_kept_onto(rt, refusals);
    editors::lines_of_a_file(rt, refusals);
    tools::checked(rt, refusals);
    tools::shown(rt, refusals);
    tools::migrated(rt, refusals);
    tools::texts(rt, refusals);
    words::words_are_read(rt, refusals);
}

#[test]
fn no_call_is_refused(rt: HostRuntime) {
    all_runs(&rt, &mut Refusals::at_most(0));
}

#[test]
fn worked_pool(rt: HostRuntime) {
    pools::worked_pool(&rt, &mut Refusals::at_most(1));
}

#[test]
fn handed_pool(rt: HostRuntime) {
    pools::handed_pool(&rt, &mut Refusals::at_most(1));
}

#[test]
fn eight_leaves(rt: HostRuntime) {
    ropes::eight_leaves(&rt, &mut Refusals::at_most(1));
}

#[test]
fn short_literals(rt: HostRuntime) {
    ropes::short_literals(&rt, &mut Refusals::at_most(1));
}

#[test]
fn merged_last_literals(rt: HostRuntime) {
    ropes::merged_last_literals(&rt, &mut Refusals::at_most(1));
}

#[test]
fn parts_of_five_bytes(rt: HostRuntime) {
    ropes::parts_of_five_bytes(&rt, &mut Refusals::at_most(1));
}

#[test]
fn last_literals_grow(rt: HostRuntime) {
    ropes::last_literals_grow(&rt, &mut Refusals::at_most(1));
}

#[test]
fn deepest_joined(rt: HostRuntime) {
    ropes::deepest_joined(&rt, &mut Refusals::at_most(1));
}

#[test]
fn deepest_cut(rt: HostRuntime) {
    ropes::deepest_cut(&rt, &mut Refusals::at_most(1));
}

#[test]
fn deepest_appended(rt: HostRuntime) {
    ropes::deepest_appended(&rt, &mut Refusals::at_most(1));
}

#[test]
fn copied_store(rt: HostRuntime) {
    ropes::copied_store(&rt, &mut Refusals::at_most(1));
}

#[test]
fn three_leaves(rt: HostRuntime) {
    searches::three_leaves(&rt, &mut Refusals::at_most(1));
}

#[test]
fn five_bytes(rt: HostRuntime) {
    files::five_bytes(&rt, &mut Refusals::at_most(1));
}

#[test]
fn row_of_bytes(rt: HostRuntime) {
    files::row_of_bytes(&rt, &mut Refusals::at_most(1));
}

#[test]
fn one_insert(rt: HostRuntime) {
    sessions::one_insert(&rt, &mut Refusals::at_most(1));
}

#[test]
fn three_inserts(rt: HostRuntime) {
    sessions::three_inserts(&rt, &mut Refusals::at_most(1));
}

#[test]
fn paste_into_itself(rt: HostRuntime) {
    sessions::paste_into_itself(&rt, &mut Refusals::at_most(1));
}

#[test]
fn doublings(rt: HostRuntime) {
    sessions::doublings(&rt, &mut Refusals::at_most(1));
}

#[test]
fn fill_of_the_limit(rt: HostRuntime) {
    sessions::fill_of_the_limit(&rt, &mut Refusals::at_most(1));
}

#[test]
fn three_changes(rt: HostRuntime) {
    sessions::three_changes(&rt, &mut Refusals::at_most(1));
}

#[test]
fn added_source(rt: HostRuntime) {
    sessions::added_source(&rt, &mut Refusals::at_most(1));
}

#[test]
fn taken_up(rt: HostRuntime) {
    saved::taken_up(&rt, &mut Refusals::at_most(1));
}

#[test]
fn lines(rt: HostRuntime) {
    scripts::lines(&rt, &mut Refusals::at_most(1));
}

#[test]
fn image(rt: HostRuntime) {
    scripts::image(&rt, &mut Refusals::at_most(1));
}

#[test]
fn images_behind(rt: HostRuntime) {
    scripts::images_behind(&rt, &mut Refusals::at_most(1));
}

#[test]
fn logged(rt: HostRuntime) {
    scripts::logged(&rt, &mut Refusals::at_most(1));
}

#[test]
fn blamed(rt: HostRuntime) {
    scripts::blamed(&rt, &mut Refusals::at_most(1));
}

#[test]
fn served(rt: HostRuntime) {
    scripts::served(&rt, &mut Refusals::at_most(1));
}

#[test]
fn committed(rt: HostRuntime) {
    commits::committed(&rt, &mut Refusals::at_most(1));
}

#[test]
fn committed_anew(rt: HostRuntime) {
    commits::committed_anew(&rt, &mut Refusals::at_most(1));
}

#[test]
fn undo_then_type(rt: HostRuntime) {
    editors::undo_then_type(&rt, &mut Refusals::at_most(1));
}

#[test]
fn cut_and_pasted(rt: HostRuntime) {
    editors::cut_and_pasted(&rt, &mut Refusals::at_most(1));
}

#[test]
fn edited(rt: HostRuntime) {
    editors::edited(&rt, &mut Refusals::at_most(1));
}

#[test]
fn run_again(rt: HostRuntime) {
    editors::run_again(&rt, &mut Refusals::at_most(1));
}

#[test]
fn played_keys(rt: HostRuntime) {
    keeping::played_keys(&rt, &mut Refusals::at_most(1));
}

#[test]
fn resumed(rt: HostRuntime) {
    keeping::resumed(&rt, &mut Refusals::at_most(1));
}

#[test]
fn edited_kept(rt: HostRuntime) {
    keeping::edited_kept(&rt, &mut Refusals::at_most(1));
}

#[test]
fn edited_onto(rt: HostRuntime) {
    onto::edited_onto(&rt, &mut Refusals::at_most(1));
}

#[test]
fn edited_kept_onto(rt: HostRuntime) {
    onto::edited_kept_onto(&rt, &mut Refusals::at_most(1));
}

#[test]
fn lines_of_a_file(rt: HostRuntime) {
    editors::lines_of_a_file(&rt, &mut Refusals::at_most(1));
}

#[test]
fn checked(rt: HostRuntime) {
    tools::checked(&rt, &mut Refusals::at_most(1));
}

#[test]
fn shown(rt: HostRuntime) {
    tools::shown(&rt, &mut Refusals::at_most(1));
}

#[test]
fn migrated(rt: HostRuntime) {
    tools::migrated(&rt, &mut Refusals::at_most(1));
}

#[test]
fn texts(rt: HostRuntime) {
    tools::texts(&rt, &mut Refusals::at_most(1));
}

#[test]
fn words_are_read(rt: HostRuntime) {
    words::words_are_read(&rt, &mut Refusals::at_most(1));
}

#[test]
fn twice_worked_pool(rt: HostRuntime) {
    pools::worked_pool(&rt, &mut Refusals::at_most(2));
}

#[test]
fn twice_parts_of_five_bytes(rt: HostRuntime) {
    ropes::parts_of_five_bytes(&rt, &mut Refusals::at_most(2));
}

#[test]
fn twice_last_literals_grow(rt: HostRuntime) {
    ropes::last_literals_grow(&rt, &mut Refusals::at_most(2));
}

#[test]
fn twice_five_bytes(rt: HostRuntime) {
    files::five_bytes(&rt, &mut Refusals::at_most(2));
}

#[test]
fn twice_row_of_bytes(rt: HostRuntime) {
    files::row_of_bytes(&rt, &mut Refusals::at_most(2));
}

#[test]
fn twice_one_insert(rt: HostRuntime) {
    sessions::one_insert(&rt, &mut Refusals::at_most(2));
}

#[test]
fn twice_three_inserts(rt: HostRuntime) {
    sessions::three_inserts(&rt, &mut Refusals::at_most(2));
}

#[test]
fn twice_run_again(rt: HostRuntime) {
    editors::run_again(&rt, &mut Refusals::at_most(2));
}

#[test]
fn twice_shown(rt: HostRuntime) {
    tools::shown(&rt, &mut Refusals::at_most(2));
}

#[test]
fn twice_migrated(rt: HostRuntime) {
    tools::migrated(&rt, &mut Refusals::at_most(2));
}
