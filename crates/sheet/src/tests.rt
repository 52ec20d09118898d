// Sheets answered at the borders of each check. All but the first are over the register, whose keystream is zero under a zero key.
use std::alloc::{AllocError, Global};
use std::process::Abort;
use std::test::Fail;
use strips::answer_sheet;

const REGISTER: u32 = 0x9000_0002;

// An order to skip nothing, and an end.
const SKIP: u32 = 0x3000_0000;

const END: u32 = 0;

// What stands in the buffer before a run.
const BEFORE: u8 = 0xAA;

fn bytes_of(heap: Global, words: &[u32]) -> Result<Vec<u8>, AllocError> {
    let mut bytes = Vec::new(heap);
    for word in words {
        bytes.extend_from_slice(&word.to_be_bytes())?;
    }
    Ok(bytes)
}

// Answers a sheet in so much room, and compares the whole buffer and the report with its number, words and refusals.
fn expect(
    rt: &impl Abort,
    heap: Global,
    sheet: &[u32],
    room: usize,
    replies: &[u32],
    report: (u8, usize, usize),
) -> Result<(), Fail> {
    let input = bytes_of(heap, sheet)?;
    let mut buffer = vec![in heap; BEFORE; room]?;
    let found = answer_sheet(&input, &mut buffer);
    assert_eq!(rt; (found.number(), found.words, found.refused), report);
    let mut expected = bytes_of(heap, replies)?;
    assert_eq!(rt; found.bytes, expected.len());
    let behind = vec![in heap; BEFORE; room.saturating_sub(expected.len())]?;
    expected.extend_from_slice(&behind)?;
    assert!(rt; buffer == expected);
    Ok(())
}

#[test]
fn stops_before_the_first_order(rt: HostRuntime) -> Result<(), Fail> {
    let heap = rt.alloc();
    expect(&rt, heap, &[], 3, &[], (17, 0, 0))?;
    expect(&rt, heap, &[], 4, &[0xF0F0_0000], (15, 0, 0))?;
    expect(
        &rt,
        heap,
        &[0x9000_0005, END],
        4,
        &[0xF120_0000],
        (18, 0, 0),
    )?;
    expect(
        &rt,
        heap,
        &[0x8000_0002, END],
        4,
        &[0xF120_0000],
        (18, 0, 0),
    )?;
    expect(&rt, heap, &[REGISTER, END], 3, &[], (17, 0, 0))?;
    expect(
        &rt,
        heap,
        &[REGISTER, END, 0xFFFF_FFFF],
        8,
        &[END],
        (0, 1, 0),
    )
}

#[test]
fn stops_at_an_order(rt: HostRuntime) -> Result<(), Fail> {
    let heap = rt.alloc();
    expect(&rt, heap, &[REGISTER], 4, &[0xF0F0_0000], (15, 0, 0))?;
    expect(
        &rt,
        heap,
        &[REGISTER, 0x7000_0001],
        8,
        &[0xF100_0000],
        (16, 0, 0),
    )?;
    expect(
        &rt,
        heap,
        &[REGISTER, 0x1000_0001],
        8,
        &[0xF100_0000],
        (16, 0, 0),
    )?;
    expect(
        &rt,
        heap,
        &[REGISTER, 0x8000_0000],
        8,
        &[0xF100_0000],
        (16, 0, 0),
    )?;
    expect(
        &rt,
        heap,
        &[REGISTER, SKIP, 0x2000_0001],
        8,
        &[0xF050_0000, 0xF0F0_0001],
        (15, 1, 1),
    )?;
    expect(
        &rt,
        heap,
        &[REGISTER, 0x2000_0001, 0xFF00_0001],
        8,
        &[0xF100_0000],
        (16, 0, 0),
    )?;
    expect(
        &rt,
        heap,
        &[REGISTER, 0x1010_1000, 1, 0x0100_0000, 0x0100_0100],
        8,
        &[0xF100_0000],
        (16, 0, 0),
    )
}

#[test]
fn replies_that_just_fit(rt: HostRuntime) -> Result<(), Fail> {
    let heap = rt.alloc();
    expect(
        &rt,
        heap,
        &[REGISTER, 0x5000_0000, END],
        11,
        &[],
        (17, 0, 0),
    )?;
    expect(
        &rt,
        heap,
        &[REGISTER, 0x5000_0000, END],
        12,
        &[0xF050_0000, END],
        (0, 2, 1),
    )?;
    expect(&rt, heap, &[REGISTER, 0x6000_0000], 515, &[], (17, 0, 0))?;
    expect(
        &rt,
        heap,
        &[REGISTER, 0x6000_0000],
        516,
        &[0xF050_0000, 0xF0F0_0001],
        (15, 1, 1),
    )?;
    expect(
        &rt,
        heap,
        &[REGISTER, 0x2000_0005, 1, 0, END],
        11,
        &[],
        (17, 0, 0),
    )?;
    expect(
        &rt,
        heap,
        &[REGISTER, 0x2000_0005, 1, 0, END],
        12,
        &[0xF050_0000, END],
        (0, 4, 1),
    )?;
    expect(
        &rt,
        heap,
        &[REGISTER, SKIP, SKIP],
        7,
        &[0xF050_0000],
        (17, 1, 1),
    )
}

#[test]
fn refusals_of_the_session(rt: HostRuntime) -> Result<(), Fail> {
    let heap = rt.alloc();
    let sheet = [
        REGISTER,
        0x1000_0000,
        0,
        0x1000_0000,
        1,
        0x1400_1000,
        1,
        0,
        0,
        0,
        0,
        0,
        0,
        0,
        0,
        0,
        0,
        0,
        0,
        0,
        0,
        0,
        0,
        0,
        0x1400_0000,
        1,
        0,
        0,
        0,
        0,
        0,
        0,
        0,
        0,
        0,
        0,
        0,
        0,
        0,
        0,
        0,
        0,
        0x1000_0000,
        1,
        0x2000_0004,
        0x0102_0304,
        SKIP,
        0x3000_0001,
        0x4000_0004,
        0x4000_0001,
        0x6000_0000,
        0x7000_0000,
        0x7000_0000,
        END,
    ];
    let replies = [
        0xF020_0000,
        0xF030_0002,
        0xF040_0004,
        0x1000_0000,
        0xF010_0029,
        0x2000_0004,
        0x0102_0304,
        SKIP,
        0xF070_002E,
        0x4000_0000,
        0xF080_0030,
        0x6000_0042,
        0x4000_0000,
        0,
        0,
        0,
        0,
        0,
        0,
        0,
        0,
        0,
        0,
        0,
        0,
        0,
        0,
        0,
        0,
        0x7000_0000,
        0xF050_0033,
        END,
    ];
    expect(&rt, heap, &sheet, 600, &replies, (0, 53, 7))
}

#[test]
fn keystream_of_snow_2(rt: HostRuntime) -> Result<(), Fail> {
    let heap = rt.alloc();
    let mut sheet = [
        0x9000_0000,
        0x1101_0000,
        16,
        0x8000_0000,
        0,
        0,
        0,
        0,
        0,
        0,
        0,
        0x2000_0008,
        0,
        0,
        END,
    ];
    let replies = [0x1000_0000, 0x2000_0008, 0x8D59_0AE9, 0xA74A_7D05, END];
    expect(&rt, heap, &sheet, 64, &replies, (0, 14, 0))?;
    sheet[0] = 0x9000_0004;
    let every_other = [0x1000_0000, 0x2000_0008, 0x8D59_0AE9, 0x6DC9_CA74, END];
    expect(&rt, heap, &sheet, 64, &every_other, (0, 14, 0))
}

#[test]
fn origins_of_snow_3g_and_the_pair(rt: HostRuntime) -> Result<(), Fail> {
    let heap = rt.alloc();
    let sheet = [
        0x9000_0001,
        0x1201_0000,
        16,
        1,
        2,
        3,
        4,
        5,
        6,
        7,
        8,
        9,
        10,
        11,
        12,
        0x3000_0009,
        0x6000_0000,
        END,
    ];
    let replies = [
        0x1000_0000,
        SKIP,
        0x6000_0032,
        0x2010_0000,
        0x1_0000,
        0x2_0000,
        0x3_0000,
        0x4_0000,
        0x5_0000,
        0x6_0000,
        0x7_0000,
        0x8_0000,
        0x9_0000,
        0xA_0000,
        0xB_0000,
        0xC_0000,
        END,
    ];
    expect(&rt, heap, &sheet, 528, &replies, (0, 17, 0))?;
    let pair = [
        0x9000_0003,
        0x1112_1000,
        16,
        0x1000_0000,
        0,
        0,
        0,
        0,
        0x1000_0000,
        0,
        0,
        0,
        0,
        0,
        0,
        0,
        0,
        0x1312_1000,
        16,
        0x1000_0000,
        0,
        0,
        0,
        0,
        0,
        0,
        0,
        0,
        0,
        0,
        0,
        0,
        0x1000_0000,
        0,
        0,
        0,
        0,
        0,
        0,
        0,
        0,
        0x6000_0000,
        END,
    ];
    let named = [
        0xF032_0000,
        0x1000_0000,
        0x6000_0054,
        0x3121_1000,
        0,
        0,
        0,
        0,
        0,
        0,
        0,
        0,
        0,
        0,
        0,
        0x10,
        0,
        0,
        0,
        0,
        0,
        0,
        0,
        0,
        END,
    ];
    expect(&rt, heap, &pair, 528, &named, (0, 42, 1))
}

#[test]
fn longest_sheet(rt: HostRuntime) -> Result<(), Fail> {
    let heap = rt.alloc();
    let mut sheet = vec![in heap; REGISTER]?;
    let skips = vec![in heap; SKIP; 15_999]?;
    sheet.extend_from_slice(&skips)?;
    let input = bytes_of(heap, &sheet)?;
    let mut replies = vec![in heap; BEFORE; 64_000]?;
    let report = answer_sheet(&input, &mut replies);
    assert_eq!(rt;
        (report.number(), report.words, report.bytes),
        (15, 15_999, 64_000)
    );
    assert_eq!(rt; report.refused, 15_999);
    sheet.push(END)?;
    expect(&rt, heap, &sheet, 8, &[0xF0E0_0000], (14, 0, 0))
}
