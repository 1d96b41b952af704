//! Value change dumps worked out by hand.
ghost use Rattle.std.specs.Prelude.{◌≡◌, length, IfOk};

use std::alloc::{AllocError, Global};
use std::process::Abort;
use std::test::Fail;
use vw_net::Bits;
use vw_outside::Name;
use vw_vcd::{Wave, head};

/// The lines before the first clock of two signals whose nets are printed as `q`.
const HEAD: &[u8] = b"$timescale 1 s $end
$scope module design $end
$var wire 1 ! n_q $end
$var wire 1 \" n_q $end
$upscope $end
$enddefinitions $end
";

/// Three clocks of two signals that go up and down together.
const TOGGLE: &[u8] = b"$timescale 1 s $end
$scope module design $end
$var wire 1 ! n_q $end
$var wire 1 \" n_q $end
$upscope $end
$enddefinitions $end
#0
$dumpvars
0!
0\"
$end
#1
1!
1\"
#2
0!
0\"
#3
";

/// Three clocks of these signals from clock 255 on.
const LATER: &[u8] = b"#255
$dumpvars
1!
1\"
$end
#257
0!
0\"
#258
";

/// Nets with bytes that names don't have.
const ODD_NAMES: &[u8] = b"$timescale 1 s $end
$scope module design $end
$var wire 1 ! n_u1_Q_0_ $end
$var wire 1 \" n___z_9 $end
$upscope $end
$enddefinitions $end
";

/// A signal that never changes, over 257 clocks.
const REST: &[u8] = b"#0
$dumpvars
0!
$end
#257
";

/// Numbers of signals, and the lines that declare them, with their identifiers.
const IDENTIFIERS: &[(usize, &[u8])] = &[
    (0, b"$var wire 1 ! n_q $end"),
    (1, b"$var wire 1 \" n_q $end"),
    (93, b"$var wire 1 ~ n_q $end"),
    (94, b"$var wire 1 !\" n_q $end"),
    (8_835, b"$var wire 1 ~~ n_q $end"),
    (8_836, b"$var wire 1 !!\" n_q $end"),
];

/// Asserts that this text is found.
fn is_text(rt: &impl Abort, found: &[u8], wanted: &[u8]) {
    assert_eq!(rt; found, wanted);
}

/// The head of two signals.
fn head_of(alloc: Global, one: &[u8], other: &[u8]) -> Result<Vec<u8>, AllocError> {
    let one = Name::of(Vec::from_slice(alloc, one)?);
    let other = Name::of(Vec::from_slice(alloc, other)?);
    head(alloc, &[one, other])
}

/// A row of two signals with one value.
fn both(alloc: Global, bit: bool) -> Result<Bits, AllocError>
    ensures { IfOk result (λ row. length row ≡ 2) }
{
    Ok(Bits::of(vec![in alloc; bit; 2]?))
}

#[test]
fn two_signals_toggle(rt: HostRuntime) -> Result<(), Fail> {
    let alloc = rt.alloc();
    let mut text = head_of(alloc, b"q", b"q")?;
    let mut wave = Wave::make(alloc, 0, 2)?;
    wave.push_row(&mut text, &both(alloc, false)?)?;
    let lines = wave.row(alloc, &both(alloc, true)?)?;
    text.extend_from_slice(&lines)?;
    wave.push_row(&mut text, &both(alloc, false)?)?;
    text.extend_from_slice(&wave.end(alloc)?)?;
    is_text(&rt, &text, TOGGLE);
    Ok(())
}

#[test]
fn a_wave_begins_at_any_clock_with_all_values(rt: HostRuntime) -> Result<(), Fail> {
    let alloc = rt.alloc();
    let mut text = Vec::new(alloc);
    let mut wave = Wave::make(alloc, 255, 2)?;
    wave.push_row(&mut text, &both(alloc, true)?)?;
    wave.push_row(&mut text, &both(alloc, true)?)?;
    wave.push_row(&mut text, &both(alloc, false)?)?;
    text.extend_from_slice(&wave.end(alloc)?)?;
    is_text(&rt, &text, LATER);
    Ok(())
}

#[test]
fn a_wave_without_clocks_has_its_last_line_alone(rt: HostRuntime) -> Result<(), Fail> {
    let alloc = rt.alloc();
    is_text(&rt, &head_of(alloc, b"q", b"q")?, HEAD);
    is_text(&rt, &Wave::make(alloc, 0, 2)?.end(alloc)?, b"#0\n");
    is_text(&rt, &Wave::make(alloc, 257, 2)?.end(alloc)?, b"#257\n");
    Ok(())
}

#[test]
fn names_have_letters_digits_and_underscores(rt: HostRuntime) -> Result<(), Fail> {
    is_text(
        &rt,
        &head_of(rt.alloc(), b"u1/Q[0]", b"_\xffz.9")?,
        ODD_NAMES,
    );
    Ok(())
}

/// Appends the lines of 257 clocks with one row.
fn push_rest(wave: &mut Wave, text: &mut Vec<u8>, row: &Bits) -> Result<(), AllocError>
    requires fresh { wave.old.clock ≡ 0 }
    requires signals { length row.now ≡ wave.old.signals }
{
    for _ in 0..257u32 {
        wave.push_row(text, row)?;
    }
    Ok(())
}

#[test]
fn a_signal_at_rest_takes_few_bytes(rt: HostRuntime) -> Result<(), Fail> {
    let alloc = rt.alloc();
    let mut text = Vec::new(alloc);
    let mut wave = Wave::make(alloc, 0, 1)?;
    let row = Bits::of(vec![in alloc; false; 1]?);
    push_rest(&mut wave, &mut text, &row)?;
    text.extend_from_slice(&wave.end(alloc)?)?;
    is_text(&rt, &text, REST);
    Ok(())
}

/// The head of 8,837 signals whose nets are printed as `q`.
fn head_of_many(alloc: Global) -> Result<Vec<u8>, Fail> {
    let mut names = Vec::new(alloc);
    for _ in 0..8_837 {
        names.push(Name::of(Vec::from_slice(alloc, b"q")?))?;
    }
    if names.len() > 8_837 {
        return Err("too many signals".into());
    }
    Ok(head(alloc, &names)?)
}

/// The line of a head that declares the signal with this number.
fn declaration(head: &[u8], number: usize) -> &[u8] {
    head.split(|byte| *byte == b'\n')
        .skip(2)
        .nth(number)
        .unwrap_or(b"")
}

#[test]
fn identifiers_have_their_least_digit_first(rt: HostRuntime) -> Result<(), Fail> {
    let head = head_of_many(rt.alloc())?;
    for (number, wanted) in IDENTIFIERS {
        is_text(&rt, declaration(&head, *number), wanted);
    }
    Ok(())
}
