//! Calls on a buffer, one by one.

use crate::images::{BEYOND, CELLS, PAST, SEVENTEEN, TWICE, image_of};
use crate::runs::{BufferOrder, Past, Said, let_go};
use crate::tapes::past_with;
use port_set::TapePort;
use std::alloc::Global;
use std::test::Fail;
use store_buf::BufFault;
use ws_words::NoMemory;

// A call that was taken, as it is once more old: its instruction, the token that it reported, how many queues
// are open then, and the answer of the watched instruction.
fn took(instr: u32, token: Option<(u32, u8, u64)>, open: u32, answer: Option<u64>) -> Said {
    Said {
        instr,
        token,
        fault: None,
        again: Some(BufFault::Old),
        open,
        answer,
    }
}

// A call that met a fault, and once more, with no queue open.
fn failed(instr: u32, fault: BufFault, array: u32, answer: Option<u64>) -> Said {
    Said {
        instr,
        token: None,
        fault: Some(fault),
        again: Some(BufFault::Ended { array }),
        open: 0,
        answer,
    }
}

// Tokens that arrive at these ports, with addresses apart, and the instruction of which the answer is asked.
fn script(script: &'static [(u32, u8)], watched: u32) -> BufferOrder {
    BufferOrder {
        script,
        seed: None,
        late: false,
        apart: true,
        watched,
    }
}

// Whether the last calls of a run were answered so.
fn ends_so(past: &Past<TapePort>, wanted: &[Said]) -> bool {
    past.said.ends_with(wanted)
}

// Whether the last calls of a script on an image were answered so.
fn says(alloc: Global, text: &str, order: &BufferOrder, wanted: &[Said]) -> Result<bool, NoMemory> {
    let image = image_of(alloc, text)?;
    let past = past_with(alloc, &image, &[1], 0, order)?;
    let so = ends_so(&past, wanted);
    let_go(past);
    Ok(so)
}

// A load of a cell with an open queue waits for the data of its store, and a load of another cell doesn't.
#[test]
fn a_load_waits_for_the_data_of_its_cell(rt: HostRuntime) -> Result<(), Fail> {
    let order = script(
        &[
            (1, 0),
            (2, 0),
            (3, 0),
            (3, 1),
            (4, 0),
            (6, 0),
            (8, 0),
            (9, 0),
            (11, 0),
            (10, 0),
            (12, 0),
            (5, 0),
            (6, 1),
        ],
        11,
    );
    let wanted = [
        took(2, Some((3, 1, 1)), 0, None),
        took(6, None, 1, None),
        took(11, None, 1, None),
        took(12, Some((14, 0, 0)), 1, None),
        took(6, Some((13, 0, 5)), 0, Some(5)),
    ];
    assert!(rt; says(rt.alloc(), CELLS, &order, &wanted)?);
    Ok(())
}

// An out-of-bounds load is a fault once no queue is open.
#[test]
fn a_fault_waits_for_open_queues(rt: HostRuntime) -> Result<(), Fail> {
    let order = script(
        &[
            (1, 0),
            (2, 0),
            (3, 0),
            (3, 1),
            (4, 0),
            (6, 0),
            (8, 0),
            (9, 0),
            (11, 0),
            (10, 0),
            (12, 0),
            (5, 0),
            (6, 1),
            (15, 0),
        ],
        11,
    );
    let wanted = [
        took(11, None, 1, None),
        took(12, None, 1, None),
        failed(6, BufFault::Index { array: 1 }, 1, Some(5)),
        failed(15, BufFault::Ended { array: 1 }, 1, Some(5)),
    ];
    assert!(rt; says(rt.alloc(), PAST, &order, &wanted)?);
    Ok(())
}

// Two stores of one cell are in one queue, and the later one's data waits for that of the first.
#[test]
fn stores_of_one_cell_are_written_in_turn(rt: HostRuntime) -> Result<(), Fail> {
    let order = script(
        &[
            (1, 0),
            (3, 0),
            (5, 0),
            (6, 0),
            (4, 0),
            (5, 1),
            (2, 0),
            (3, 1),
        ],
        6,
    );
    let wanted = [
        took(3, None, 1, None),
        took(5, None, 1, None),
        took(6, None, 1, None),
        took(5, None, 1, None),
        took(3, Some((7, 0, 2)), 0, Some(2)),
    ];
    assert!(rt; says(rt.alloc(), TWICE, &order, &wanted)?);
    Ok(())
}

// A store whose address is out of bounds isn't opened, and is a fault when its data comes.
#[test]
fn a_store_past_the_end_is_not_opened(rt: HostRuntime) -> Result<(), Fail> {
    let order = script(
        &[
            (1, 0),
            (2, 0),
            (5, 0),
            (4, 0),
            (6, 0),
            (7, 0),
            (3, 0),
            (6, 1),
            (8, 0),
        ],
        5,
    );
    let wanted = [
        took(5, None, 0, None),
        took(6, None, 0, None),
        took(7, None, 0, None),
        failed(6, BufFault::Index { array: 1 }, 1, None),
        failed(8, BufFault::Ended { array: 1 }, 1, None),
    ];
    assert!(rt; says(rt.alloc(), BEYOND, &order, &wanted)?);
    Ok(())
}

// Sixteen queues are open at most: the seventeenth store waits until one is free.
#[test]
fn a_seventeenth_store_waits_for_a_queue(rt: HostRuntime) -> Result<(), Fail> {
    let order = script(
        &[
            (1, 0),
            (2, 0),
            (3, 0),
            (5, 0),
            (6, 0),
            (7, 0),
            (8, 0),
            (9, 0),
            (10, 0),
            (11, 0),
            (13, 0),
            (12, 0),
            (14, 0),
            (15, 0),
            (17, 0),
            (18, 0),
            (19, 0),
            (20, 0),
            (21, 0),
            (22, 0),
            (23, 0),
            (24, 0),
            (25, 0),
            (27, 0),
            (26, 0),
            (29, 0),
            (30, 0),
            (31, 0),
            (32, 0),
            (33, 0),
            (34, 0),
            (35, 0),
            (36, 0),
            (37, 0),
            (38, 0),
            (39, 0),
            (40, 0),
            (41, 0),
            (3, 1),
            (4, 0),
            (6, 1),
        ],
        41,
    );
    let wanted = [
        took(36, None, 15, None),
        took(38, None, 16, None),
        took(40, None, 16, None),
        took(41, None, 16, None),
        took(3, None, 16, None),
        took(6, None, 15, None),
    ];
    assert!(rt; says(rt.alloc(), SEVENTEEN, &order, &wanted)?);
    Ok(())
}
