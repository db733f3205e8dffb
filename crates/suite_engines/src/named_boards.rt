// Where a board is named, its workers do all of the lifting, whatever is written, and nothing is searched for. On a ring of 200 states measures climb one by
// one where the formula asks whether an action that one state alone has stays ahead.

use crate::common::{request, ring_of, says, team, unwritten, wanted, why};
use engines::engine::check_asked;
use engines::error::MuError;
use engines::reasons::tell_why;
use engines::request::{BoardKind, Options};
use samples::holds;
use samples::host::Host;
use samples::lifters::Lifters;
use samples::texts::unseeded;

const FORMULA: &[u8] = b"[true*]<true*>(<a>true)";

fn checked(
    rt: &impl Host,
    options: Options,
    with_evidence: bool,
    lifters: &Lifters,
) -> Result<bool, MuError> {
    check_asked(
        rt,
        rt.alloc(),
        &request(options, false),
        wanted(with_evidence, with_evidence),
        unseeded(),
        ring_of(rt, 200).as_bytes(),
        FORMULA,
        &mut unwritten(rt.alloc()),
        lifters,
    )
}

fn told(rt: &impl Host, options: Options, lifters: &Lifters) -> Result<bool, MuError> {
    tell_why(
        rt,
        rt.alloc(),
        &why(options),
        unseeded(),
        ring_of(rt, 200).as_bytes(),
        FORMULA,
        &mut Vec::new(rt.alloc()),
        lifters,
    )
}

/// The workers of these options do all of the lifting of checks and of what is told of them.
fn do_all(rt: &impl Host, options: Options) {
    let workers = u64::from(options.workers);
    let (one, other, third) = (Lifters::new(), Lifters::new(), Lifters::new());
    says(rt, "report", &checked(rt, options, false, &one), true);
    holds!(rt; one.did_all(workers), "a report");
    says(rt, "evidence", &checked(rt, options, true, &other), true);
    holds!(rt; other.did_all(workers), "evidence");
    says(rt, "reasons", &told(rt, options, &third), true);
    holds!(rt; third.did_all(workers), "reasons");
}

#[test]
fn workers_do_all_over_shards_and_over_words(rt: HostRuntime) {
    for board in [BoardKind::Locked, BoardKind::Packed] {
        do_all(&rt, team(false, board));
        do_all(&rt, team(true, board));
    }
}
