ghost use Rattle.std.specs.Prelude.{◌≡◌};

use crate::boards::{TRIANGLE, board, distances_of};
use crate::same::{are_bytes, are_numbers};
use std::alloc::{AllocError, Global};
use std::process::Abort;
use std::test::Fail;
use vw_board::{BoardFault, Distances, read};
use vw_plan::Board;

/// The chips, cells and settling time of a board, and of each link its ends, its width and its delay.
fn numbers_of(alloc: Global, board: &Board) -> Result<Vec<u32>, AllocError> {
    let mut numbers = [board.chips(), board.cells(), board.settle()].to_vec(alloc)?;
    for link in board.links() {
        numbers.extend_from_slice(&[link.from(), link.to(), link.width(), link.delay()])?;
    }
    Ok(numbers)
}

/// Asserts the numbers of the board of a text.
fn is_read(rt: &impl Abort, alloc: Global, text: &[u8], wanted: &[u32]) -> Result<(), Fail> {
    let board = board(alloc, text)?;
    let found = numbers_of(alloc, &board)?;
    are_numbers(rt, &found, wanted);
    Ok(())
}

/// Asserts the numbers of the board of each text.
fn are_read(rt: &impl Abort, alloc: Global, table: &[(&[u8], &[u32])]) -> Result<(), Fail> {
    for (text, wanted) in table {
        is_read(rt, alloc, text, wanted)?;
    }
    Ok(())
}

/// The message of the fault of a text; nothing where it has none.
fn message(alloc: Global, text: &[u8]) -> Result<Vec<u8>, AllocError> {
    match read(alloc, text) {
        Ok(_) => Ok(Vec::new(alloc)),
        Err(fault) => fault.text(alloc),
    }
}

/// Asserts the message of a text that begins with a front.
fn is_message(
    rt: &impl Abort,
    alloc: Global,
    front: &[u8],
    rest: &[u8],
    wanted: &[u8],
) -> Result<(), AllocError> {
    let mut text = front.to_vec(alloc)?;
    text.extend_from_slice(rest)?;
    let found = message(alloc, &text)?;
    are_bytes(rt, &found, wanted, rest);
    Ok(())
}

/// Asserts the message of each text, which stands behind the same front.
fn are_messages(
    rt: &impl Abort,
    alloc: Global,
    front: &[u8],
    table: &[(&[u8], &[u8])],
) -> Result<(), AllocError> {
    for (rest, wanted) in table {
        is_message(rt, alloc, front, rest, wanted)?;
    }
    Ok(())
}

/// The numbers of the triangle.
const TRIANGLE_NUMBERS: &[u32] = &[
    2, 1, 0, 0, 1, 1, 1, 0, 2, 1, 1, 1, 0, 1, 1, 1, 2, 1, 1, 2, 0, 1, 1, 2, 1, 1, 1,
];

/// Texts without a fault.
const READ: &[(&[u8], &[u32])] = &[
    (TRIANGLE, TRIANGLE_NUMBERS),
    // comments, blanks and a continued line; the host has no limit of pins
    (
        b"# two chips\nboard 1\n\nchips \\\n 2\r\ncells 65536\nsettle 15\npins 2\nlink 0 1 1\nlink 1 0 1\nlink 2 0 1\nlink 0 2 1",
        &[2, 65536, 15, 0, 1, 1, 1, 1, 0, 1, 1, 2, 0, 1, 1, 0, 2, 1, 1],
    ),
    (
        b"board 1\nchips 1\ncells 1\nsettle 0\npins 128\nlink 1 0 64\nlink 0 1 64\n",
        &[1, 1, 0, 1, 0, 64, 1, 0, 1, 64, 1],
    ),
    (
        b"board 1\nchips 1\ncells 1\nsettle 0\npins 4096\nlink 1 0 1\nlink 0 1 1\n",
        &[1, 1, 0, 1, 0, 1, 1, 0, 1, 1, 1],
    ),
    // with delays, which are no pins
    (
        b"board 2\nchips 1\ncells 1\nsettle 0\npins 3\nlink 1 0 1 16\nlink 0 1 2 1\n",
        &[1, 1, 0, 1, 0, 1, 16, 0, 1, 2, 1],
    ),
    (
        b"board 2\nchips 1\ncells 1\nsettle 0\npins 128\nlink 1 0 64 7\nlink 0 1 64 8\n",
        &[1, 1, 0, 1, 0, 64, 7, 0, 1, 64, 8],
    ),
];

#[test]
fn boards_are_read(rt: HostRuntime) -> Result<(), Fail> {
    are_read(&rt, rt.alloc(), READ)
}

/// Texts with a line at fault.
const LINES: &[(&[u8], &[u8])] = &[
    (b"", b"board 2: line 1: bad line\n"),
    (b"# only\n\n", b"board 2: line 1: bad line\n"),
    (b"board 1\n", b"board 2: line 2: bad line\n"),
    (
        b"\nboard 1\n\nchips \\\n2\n",
        b"board 2: line 5: bad line\n",
    ),
    (b"chips 2\n", b"board 2: line 1: bad line\n"),
    (b"board 1 1\n", b"board 2: line 1: bad line\n"),
    (b"board\n", b"board 2: line 1: bad line\n"),
    (b"board 2\n", b"board 2: line 2: bad line\n"),
    (b"board 0\n", b"board 3: line 1: bad number\n"),
    (b"board 3\n", b"board 3: line 1: bad number\n"),
    (b"board 2 1\n", b"board 2: line 1: bad line\n"),
    (b"board 01\n", b"board 3: line 1: bad number\n"),
    (b"board 1\nchips 0\n", b"board 3: line 2: bad number\n"),
    (b"board 1\nchips 33\n", b"board 3: line 2: bad number\n"),
    (
        b"board 1\nchips 1\ncells 0\n",
        b"board 3: line 3: bad number\n",
    ),
    (
        b"board 1\nchips 1\ncells 65537\n",
        b"board 3: line 3: bad number\n",
    ),
    (
        b"board 1\nchips 1\ncells 1\nsettle 16\n",
        b"board 3: line 4: bad number\n",
    ),
    (
        b"board 1\nchips 1\ncells 1\nsettle 0\npins 0\n",
        b"board 3: line 5: bad number\n",
    ),
    (
        b"board 1\nchips 1\ncells 1\nsettle 0\npins 4097\n",
        b"board 3: line 5: bad number\n",
    ),
    (
        b"board 1\nchips 1\ncells 1\nsettle 0\npins 18446744073709551616\n",
        b"board 3: line 5: bad number\n",
    ),
    // the first line at fault counts, and a text that ends early is at fault behind its last line
    (
        b"board 1\nchips 33\nsettle\n",
        b"board 3: line 2: bad number\n",
    ),
];

#[test]
fn each_line_at_fault_is_named(rt: HostRuntime) -> Result<(), Fail> {
    Ok(are_messages(&rt, rt.alloc(), b"", LINES)?)
}

/// Lines of links at fault.
const LINKS: &[(&[u8], &[u8])] = &[
    (b"link 0 1\n", b"board 2: line 6: bad line\n"),
    (b"link 0 1 1 1\n", b"board 2: line 6: bad line\n"),
    (b"links 0 1 1\n", b"board 2: line 6: bad line\n"),
    (b"link 0 3 1\n", b"board 3: line 6: bad number\n"),
    (b"link 3 0 1\n", b"board 3: line 6: bad number\n"),
    (b"link 0 1 0\n", b"board 3: line 6: bad number\n"),
    (b"link 0 1 65\n", b"board 3: line 6: bad number\n"),
    (
        b"link 0 1 1\n\nlink 1 01 1\n",
        b"board 3: line 8: bad number\n",
    ),
    (b"link 0 1 1\nlink 2 2 1\n", b"board 4: self link 2\n"),
    // a second link may have another width, and one that leads back is another link
    (
        b"link 0 1 1\nlink 1 0 1\nlink 0 1 2\n",
        b"board 5: duplicate link 0 1\n",
    ),
    // on one line the fault that stands first counts
    (b"link 0 0 65\n", b"board 3: line 6: bad number\n"),
    // all links that leave a chip or reach it count, and the least chip is named
    (
        b"link 1 0 1\nlink 0 1 1\nlink 1 2 2\nlink 2 1 1\nlink 0 2 64\n",
        b"board 6: chip 1 uses 5 pins of 4\n",
    ),
    (
        b"link 0 1 1\nlink 1 0 1\nlink 1 2 1\n",
        b"board 7: no walk from 2 to 0\n",
    ),
    (b"", b"board 7: no walk from 0 to 1\n"),
];

#[test]
fn each_fault_of_links_is_named(rt: HostRuntime) -> Result<(), Fail> {
    let front = b"board 1\nchips 2\ncells 4\nsettle 0\npins 4\n";
    Ok(are_messages(&rt, rt.alloc(), front, LINKS)?)
}

/// Lines of links at fault, with delays.
const DELAYS: &[(&[u8], &[u8])] = &[
    (b"link 0 1\n", b"board 2: line 6: bad line\n"),
    (b"link 0 1 1\n", b"board 2: line 6: bad line\n"),
    (b"link 0 1 1 1 1\n", b"board 2: line 6: bad line\n"),
    (b"link 0 1 1 0\n", b"board 3: line 6: bad number\n"),
    (b"link 0 1 1 17\n", b"board 3: line 6: bad number\n"),
    (b"link 0 1 1 01\n", b"board 3: line 6: bad number\n"),
    (b"link 0 1 65 1\n", b"board 3: line 6: bad number\n"),
    (
        b"link 0 1 1 3\nlink 1 0 1 x\n",
        b"board 3: line 7: bad number\n",
    ),
    // on one line the fault that stands first counts
    (b"link 0 0 1\n", b"board 2: line 6: bad line\n"),
    (b"link 0 0 1 17\n", b"board 3: line 6: bad number\n"),
    (b"link 0 0 1 16\n", b"board 4: self link 0\n"),
    // a second link may have another delay
    (
        b"link 0 1 1 3\nlink 0 1 1 4\n",
        b"board 5: duplicate link 0 1\n",
    ),
    (
        b"link 1 0 1 1\nlink 0 1 1 16\nlink 1 2 2 16\nlink 2 1 1 2\n",
        b"board 6: chip 1 uses 5 pins of 4\n",
    ),
    (
        b"link 0 1 1 1\nlink 1 0 1 1\nlink 1 2 1 1\n",
        b"board 7: no walk from 2 to 0\n",
    ),
];

#[test]
fn delays_have_the_faults_of_their_lines(rt: HostRuntime) -> Result<(), Fail> {
    let front = b"board 2\nchips 2\ncells 4\nsettle 0\npins 4\n";
    Ok(are_messages(&rt, rt.alloc(), front, DELAYS)?)
}

/// The triangle's text, with empty lines behind it up to so many bytes.
fn filled(alloc: Global, size: usize) -> Result<Vec<u8>, AllocError> {
    let mut text = TRIANGLE.to_vec(alloc)?;
    for _ in TRIANGLE.len()..size {
        text.push(b'\n')?;
    }
    Ok(text)
}

#[test]
fn texts_up_to_the_limit_are_read(rt: HostRuntime) -> Result<(), Fail> {
    let longest = filled(rt.alloc(), 1_048_576)?;
    is_read(&rt, rt.alloc(), &longest, TRIANGLE_NUMBERS)?;
    let message = b"board 1: text longer than 1048576 bytes\n";
    is_message(&rt, rt.alloc(), &longest, b"\n", message)?;
    Ok(())
}

#[test]
fn short_memory_is_named(rt: HostRuntime) -> Result<(), Fail> {
    let message = BoardFault::NoMemory.text(rt.alloc())?;
    are_bytes(&rt, &message, b"out of memory\n", b"no memory");
    Ok(())
}

/// Asserts how far apart two nodes are, and which node comes first on the way, where they aren't one.
fn is_apart(rt: &impl Abort, distances: &Distances, chips: u32, row: (u32, u32, u32, u32))
    requires { distances.now.chips ≡ chips }
{
    let (a, b, distance, first) = row;
    assert!(rt; a <= chips && b <= chips);
    let found = distances.distance(a, b);
    let step = if a == b {
        first
    } else {
        distances.first_step(a, b)
    };
    are_numbers(rt, &[a, b, found, step], &[a, b, distance, first]);
}

/// Asserts how far apart nodes of a board are, and, where they are two, which node comes first on the way.
fn are_apart(
    rt: &impl Abort,
    alloc: Global,
    text: &[u8],
    chips: u32,
    table: &[(u32, u32, u32, u32)],
) -> Result<(), Fail> {
    let distances = distances_of(alloc, text, chips)?;
    for row in table {
        is_apart(rt, &distances, chips, *row);
    }
    Ok(())
}

#[test]
fn nodes_of_a_triangle_are_one_link_apart(rt: HostRuntime) -> Result<(), Fail> {
    let table = &[
        (0, 0, 0, 0),
        (0, 1, 1, 1),
        (0, 2, 1, 2),
        (1, 0, 1, 0),
        (1, 1, 0, 1),
        (1, 2, 1, 2),
        (2, 0, 1, 0),
        (2, 1, 1, 1),
        (2, 2, 0, 2),
    ];
    are_apart(&rt, rt.alloc(), TRIANGLE, 2, table)
}

#[test]
fn walks_go_by_other_nodes(rt: HostRuntime) -> Result<(), Fail> {
    // a ring from the host over three chips, and a way back from chip 3 to chip 1
    let text =
        b"board 1\nchips 4\ncells 1\nsettle 0\npins 8\nlink 0 1 1\nlink 1 2 1\nlink 2 3 1\nlink 3 0 1\nlink 3 1 1\nlink 1 4 1\nlink 4 3 1\n";
    let table = &[
        (0, 1, 1, 1),
        (0, 2, 2, 1),
        (0, 3, 3, 1),
        (1, 0, 3, 2),
        (1, 3, 2, 2),
        (3, 2, 2, 1),
        (2, 1, 2, 3),
        (4, 2, 3, 3),
    ];
    are_apart(&rt, rt.alloc(), text, 4, table)
}
