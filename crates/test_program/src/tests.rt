use crate::scenario::{Scenario, read_scenario};
use i3c_every::Told;
use std::test::Fail;

/// A hub and a light, which has an address before the block begins and raises an interrupt in it.
const RAISE: [&str; 7] = [
    "main hub 020400000001 46 C0",
    "attach light 020400000010 06 44",
    "daa",
    "any",
    "track",
    "raise light 2A",
    "close",
];

/// How many records the newest answer adds, and how many devices ask then; 9 of each if the program wasn't answered.
fn told(scenario: &Scenario) -> (usize, usize) {
    match scenario.reply() {
        Some(reply) => (reply.added().len(), reply.asking().len()),
        None => (9, 9),
    }
}

/// Whether the program was told that something happened, and that one device asks.
fn has_happened(scenario: &Scenario) -> bool {
    match scenario.newest() {
        Some(step) => match &step.answer {
            Told::Happened(reply) => reply.asking().len() == 1,
            _ => false,
        },
        None => false,
    }
}

/// Whether it was told that nothing is left.
fn is_left(scenario: &Scenario) -> bool {
    match scenario.newest() {
        Some(step) => !matches!(step.answer, Told::NothingLeft(_)),
        None => true,
    }
}

// the interrupt is raised before the frame or behind it: the frame records it, or nothing
#[test]
fn a_frame_meets_a_raise_or_comes_before_it(rt: HostRuntime) -> Result<(), Fail> {
    let Some(mut scene) = read_scenario(rt.alloc(), &RAISE)? else {
        panic!(rt; "the scene has no plan");
    };
    let mut recorded = 0usize;
    for more in [true, false] {
        assert!(rt; scene.says("serve")?);
        let (added, asking) = told(&scene);
        recorded = recorded.saturating_add(added);
        assert!(rt; asking == 0);
        assert!(rt; scene.closes().is_none());
        assert!(rt; scene.again() == more);
    }
    assert!(rt; recorded == 1);
    Ok(())
}

// who waits is told that something happened; the frame behind it records the interrupt, and then nothing is left
#[test]
fn a_program_that_waits_has_one_run(rt: HostRuntime) -> Result<(), Fail> {
    let Some(mut scene) = read_scenario(rt.alloc(), &RAISE)? else {
        panic!(rt; "the scene has no plan");
    };
    assert!(rt; scene.waits());
    assert!(rt; has_happened(&scene));
    assert!(rt; scene.says("serve")?);
    assert!(rt; told(&scene) == (1, 0));
    assert!(rt; scene.waits());
    assert!(rt; !is_left(&scene));
    assert!(rt; scene.sent() == 3);
    assert!(rt; !scene.again());
    Ok(())
}

// behind the block it is expected that nothing waits, and then that somebody asks. Where the frame met the raise, the first of
// these places holds and the second doesn't: it is the second line of what is left. Where it came before, the raise is left: it
// is the first line, and the first place is broken behind it
#[test]
fn what_is_left_breaks_an_expectation(rt: HostRuntime) -> Result<(), Fail> {
    let file = [
        RAISE[0],
        RAISE[1],
        RAISE[2],
        RAISE[3],
        RAISE[4],
        RAISE[5],
        RAISE[6],
        "expect waiting 0",
        "policy all",
        "expect asking light",
    ];
    let Some(mut scene) = read_scenario(rt.alloc(), &file)? else {
        panic!(rt; "the scene has no plan");
    };
    for more in [true, false] {
        assert!(rt; scene.says("serve")?);
        let (added, _) = told(&scene);
        // one line that is left, or none, and then the place at which nothing may wait, or that and `policy`
        assert!(rt; added <= 1);
        assert!(rt; scene.closes() == Some(2));
        assert!(rt; scene.again() == more);
    }
    Ok(())
}

// a run without a line: the raise is left, and waits behind the block
#[test]
fn a_run_without_lines_is_closed(rt: HostRuntime) -> Result<(), Fail> {
    let file = [
        RAISE[0],
        RAISE[1],
        RAISE[2],
        RAISE[3],
        RAISE[4],
        RAISE[5],
        RAISE[6],
        "expect waiting 0",
    ];
    let Some(mut scene) = read_scenario(rt.alloc(), &file)? else {
        panic!(rt; "the scene has no plan");
    };
    assert!(rt; scene.closes() == Some(2));
    assert!(rt; !scene.again());
    Ok(())
}

// an `always` of the block holds behind the program's lines too: it is broken where the frame records the interrupt
#[test]
fn a_line_of_the_program_may_break_what_always_holds(rt: HostRuntime) -> Result<(), Fail> {
    let file = [
        RAISE[0],
        RAISE[1],
        RAISE[2],
        RAISE[3],
        "always records 0",
        RAISE[4],
        RAISE[5],
        RAISE[6],
    ];
    let Some(mut scene) = read_scenario(rt.alloc(), &file)? else {
        panic!(rt; "the scene has no plan");
    };
    let mut broken = 0usize;
    for more in [true, false] {
        assert!(rt; scene.says("serve")?);
        let Some(reply) = scene.reply() else {
            panic!(rt; "the program wasn't answered");
        };
        match reply.unmet() {
            Some(line) => {
                assert!(rt; line == 5);
                assert!(rt; reply.there() == b"records 1".as_slice());
                assert!(rt; reply.added().len() == 1);
                broken = broken.saturating_add(1);
            }
            None => {
                assert!(rt; reply.there().is_empty());
                assert!(rt; reply.added().is_empty());
            }
        }
        assert!(rt; scene.again() == more);
    }
    assert!(rt; broken == 1);
    Ok(())
}

// the light may lose power at any bit of the frame, and may be dropped. Behind the frame it is there, or was lost in it, or had
// been dropped before: three runs, in which the program is told the same
#[test]
fn a_device_at_risk_is_there_or_gone(rt: HostRuntime) -> Result<(), Fail> {
    let file = [
        RAISE[0],
        RAISE[1],
        RAISE[2],
        RAISE[3],
        "anywhere light",
        RAISE[4],
        "drop light",
        RAISE[6],
    ];
    let Some(mut scene) = read_scenario(rt.alloc(), &file)? else {
        panic!(rt; "the scene has no plan");
    };
    for more in [true, true, false] {
        assert!(rt; scene.says("serve")?);
        assert!(rt; told(&scene) == (0, 0));
        assert!(rt; scene.again() == more);
    }
    Ok(())
}

// a whole assignment sends several frames, and `symbols` asks for the past: no program sends them here
#[test]
fn lines_of_several_frames_and_of_the_past_are_not_taken(rt: HostRuntime) -> Result<(), Fail> {
    let Some(mut scene) = read_scenario(rt.alloc(), &RAISE)? else {
        panic!(rt; "the scene has no plan");
    };
    for line in [
        "daa",
        "as hub daa",
        "symbols",
        "frames 1",
        "show all",
        "",
        "# no",
    ] {
        assert!(rt; !scene.says(line)?);
    }
    assert!(rt; scene.says("show")?);
    assert!(rt; scene.sent() == 1);
    Ok(())
}
