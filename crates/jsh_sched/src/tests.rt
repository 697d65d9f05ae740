use super::*;

#[derive(Clone, Copy)]
struct Row {
    states: [ThreadState; 3],
    cursor: u32,
    main: Option<u32>,
    main_first: bool,
    picked: Option<u32>,
}

const READY: ThreadState = ThreadState::Ready;

const JOINING: ThreadState = ThreadState::Joining { target: 2 };

const ENDED: ThreadState = ThreadState::Ended;

const STOPPED: ThreadState = ThreadState::Stopped;

fn make_row(
    states: [ThreadState; 3],
    cursor: u32,
    main: Option<u32>,
    main_first: bool,
    picked: Option<u32>,
) -> Row {
    Row {
        states,
        cursor,
        main,
        main_first,
        picked,
    }
}

#[test]
fn threads_take_turns_around_the_main_one(rt: HostRuntime) {
    let all = [READY, READY, READY];
    let rows = [
        make_row(all, 0, None, false, Some(1)),
        make_row(all, 1, None, false, Some(2)),
        make_row(all, 2, None, false, Some(3)),
        make_row(all, 3, None, false, Some(1)),
        make_row(all, 9, None, false, Some(1)),
        make_row([READY, JOINING, READY], 1, None, false, Some(3)),
        make_row([ENDED, READY, ENDED], 2, None, false, Some(2)),
        make_row([ENDED, STOPPED, JOINING], 1, None, false, None),
        make_row(all, 2, Some(1), true, Some(1)),
        make_row(all, 0, Some(1), false, Some(2)),
        make_row(all, 2, Some(1), false, Some(3)),
        make_row(all, 3, Some(1), false, Some(2)),
        make_row([READY, ENDED, STOPPED], 1, Some(1), false, Some(1)),
        make_row([JOINING, READY, READY], 2, Some(1), true, Some(3)),
        make_row([ENDED, STOPPED, JOINING], 0, Some(1), true, None),
        make_row(all, 0, Some(7), true, Some(1)),
    ];
    for row in rows {
        let picked = pick(&row.states, row.cursor, row.main, row.main_first);
        assert!(rt; picked == row.picked);
    }
}

#[test]
fn a_joining_thread_is_alive(rt: HostRuntime) {
    assert!(rt; READY.is_ready() && !JOINING.is_ready());
    assert!(rt; READY.is_alive() && JOINING.is_alive());
    assert!(rt; !ENDED.is_alive() && !STOPPED.is_alive());
}
