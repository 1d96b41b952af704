ghost use Rattle.std.specs.Prelude.{◌<◌, length};

use crate::same::{assert_number, assert_same};
use std::alloc::{AllocError, Global};
use std::process::Abort;
use std::test::Fail;
use vw_blif::read;
use vw_design::{Bind, Design, Edge, Item, Model};
use vw_net::{Cover, Init, Mark};
use vw_outside::Name;
use vw_samples::{add_behind, add_number, add_words};

/// Adds a row of a table, by its number.
fn add_row(shown: &mut Vec<u8>, cover: &Cover, row: u64) -> Result<(), AllocError>
    requires { row < length cover.now.rows }
{
    shown.push(b' ')?;
    for input in 0..cover.inputs() {
        shown.push(match cover.mark(row, input) {
            Mark::Zero => b'0',
            Mark::One => b'1',
            Mark::Any => b'-',
        })?;
    }
    shown.push(b':')?;
    Ok(())
}

/// Adds the rows of a table and the value where none matches.
fn add_cover(shown: &mut Vec<u8>, cover: &Cover) -> Result<(), AllocError> {
    for row in 0..cover.count() {
        add_row(shown, cover, row)?;
    }
    shown.push(if cover.on() { b'1' } else { b'0' })?;
    Ok(())
}

/// Adds a binding of a placed model.
pub fn add_bind(shown: &mut Vec<u8>, bind: &Bind) -> Result<(), AllocError> {
    shown.extend_from_slice(bind.formal().as_slice())?;
    add_behind(shown, b'<', bind.actual().as_slice())
}

/// Adds the bindings of a placed model.
fn add_binds(shown: &mut Vec<u8>, binds: &[Bind]) -> Result<(), AllocError> {
    for bind in binds {
        shown.push(b' ')?;
        add_bind(shown, bind)?;
    }
    Ok(())
}

/// The letter of an edge.
fn edge_letter(edge: Edge) -> u8 {
    match edge {
        Edge::Rise => b'r',
        Edge::Fall => b'f',
        Edge::Unsaid => b'u',
    }
}

/// The letter of an initial value.
fn init_letter(init: Init) -> u8 {
    match init {
        Init::Zero => b'0',
        Init::One => b'1',
        Init::Free => b'?',
    }
}

/// Adds the inputs, the output and the rows of a table.
fn add_table(
    shown: &mut Vec<u8>,
    ins: &[Name],
    out: &Name,
    cover: &Cover,
) -> Result<(), AllocError> {
    add_words(shown, ins)?;
    add_behind(shown, b'>', out.as_slice())?;
    add_cover(shown, cover)
}

/// Adds the nets of a latch, with the letter of its edge, its control, and the letter of its initial value.
fn add_latch(
    shown: &mut Vec<u8>,
    d: &Name,
    q: &Name,
    edge: u8,
    control: &Option<Name>,
    init: u8,
) -> Result<(), AllocError> {
    add_behind(shown, b' ', d.as_slice())?;
    add_behind(shown, b'~', q.as_slice())?;
    match control {
        Some(control) => add_behind(shown, edge, control.as_slice())?,
        None => shown.push(edge)?,
    }
    shown.push(init)?;
    Ok(())
}

/// Adds the name of a placed model and its bindings.
fn add_placed(shown: &mut Vec<u8>, model: &Name, binds: &[Bind]) -> Result<(), AllocError> {
    add_behind(shown, b' ', model.as_slice())?;
    add_binds(shown, binds)
}

/// Adds an item, with the number of its line.
fn add_item(alloc: Global, shown: &mut Vec<u8>, item: &Item) -> Result<(), AllocError> {
    match item {
        Item::Names {
            line,
            ins,
            out,
            cover,
        } => {
            add_number(alloc, shown, *line)?;
            add_table(shown, ins.as_slice(), out, cover)
        }
        Item::Latch {
            line,
            d,
            q,
            edge,
            control,
            init,
        } => {
            add_number(alloc, shown, *line)?;
            add_latch(shown, d, q, edge_letter(*edge), control, init_letter(*init))
        }
        Item::Sub { line, model, binds } => {
            add_number(alloc, shown, *line)?;
            add_placed(shown, model, binds.as_slice())
        }
    }
}

/// Adds names, each behind a blank, and a sign behind them all.
fn add_ports(shown: &mut Vec<u8>, names: &[Name], sign: u8) -> Result<(), AllocError> {
    add_words(shown, names)?;
    shown.push(sign)?;
    Ok(())
}

/// Adds a model: its name, inputs, outputs and clocks, and its items.
pub fn add_model(alloc: Global, shown: &mut Vec<u8>, model: &Model) -> Result<(), AllocError> {
    shown.extend_from_slice(model.name().as_slice())?;
    add_ports(shown, model.inputs(), b';')?;
    add_ports(shown, model.outputs(), b';')?;
    add_ports(shown, model.clocks(), b'|')?;
    for item in model.items() {
        add_item(alloc, shown, item)?;
        shown.push(b'|')?;
    }
    Ok(())
}

/// A design written plainly.
fn written(alloc: Global, design: &Design) -> Result<Vec<u8>, AllocError> {
    let mut shown = Vec::new(alloc);
    for model in design.models() {
        add_model(alloc, &mut shown, model)?;
    }
    Ok(shown)
}

/// The design of a text written plainly, or the message of the fault.
fn shown(alloc: Global, text: &[u8]) -> Result<Vec<u8>, AllocError> {
    match read(alloc, text) {
        Ok(design) => written(alloc, &design),
        Err(fault) => fault.text(alloc),
    }
}

/// Asserts of a text what its design is, or the message of the fault.
fn assert_shown(
    rt: &impl Abort,
    alloc: Global,
    text: &[u8],
    wanted: &[u8],
) -> Result<(), AllocError> {
    let found = shown(alloc, text)?;
    assert_same(rt, text, &found, wanted);
    Ok(())
}

/// Asserts the same of each text of a table.
fn assert_all(rt: &impl Abort, alloc: Global, table: &[(&[u8], &[u8])]) -> Result<(), AllocError> {
    for (text, wanted) in table {
        assert_shown(rt, alloc, text, wanted)?;
    }
    Ok(())
}

/// Texts, and the message of the fault of each.
const FAULTS: &[(&[u8], &[u8])] = &[
    (b"", b"design 2: line 0: no model\n"),
    (b"\n# nothing\n", b"design 2: line 0: no model\n"),
    (b"\n.inputs a\n", b"design 2: line 2: no model\n"),
    (b".gate x\n", b"design 2: line 1: no model\n"),
    (b"1 1\n", b"design 2: line 1: no model\n"),
    (b".model m\n.end\n.end\n", b"design 2: line 3: no model\n"),
    (b".model m\n.end\n1\n", b"design 2: line 3: no model\n"),
    (
        b".model m\n.gate x\n",
        b"design 3: line 2: unsupported .gate\n",
    ),
    (b".model m\n.\n", b"design 3: line 2: unsupported .\n"),
    (
        b".model m\n.\x00\xff\n",
        b"design 3: line 2: unsupported .\x00\xff\n",
    ),
    (b".model\n", b"design 4: line 1: wrong number of words\n"),
    (
        b".model m n\n",
        b"design 4: line 1: wrong number of words\n",
    ),
    (
        b".model m\n.names\n",
        b"design 4: line 2: wrong number of words\n",
    ),
    (
        b".model m\n.subckt\n",
        b"design 4: line 2: wrong number of words\n",
    ),
    (
        b".model m\n.latch a\n",
        b"design 4: line 2: wrong number of words\n",
    ),
    (
        b".model m\n.latch a b re c 0 x\n",
        b"design 4: line 2: wrong number of words\n",
    ),
    (b".model m\n1 1\n", b"design 5: line 2: bad row\n"),
    (b".model m\n.names a b\n1\n", b"design 5: line 3: bad row\n"),
    (
        b".model m\n.names a b\n2 1\n",
        b"design 5: line 3: bad row\n",
    ),
    (
        b".model m\n.names a b\n1 1\n.inputs a\n1 1\n",
        b"design 5: line 5: bad row\n",
    ),
    // a malformed row that ends in the other digit
    (
        b".model m\n.names a b\n1 1\n11 0\n",
        b"design 5: line 4: bad row\n",
    ),
    (
        b".model m\n.names a b\n1 1\n0 0\n",
        b"design 6: line 4: rows of both kinds\n",
    ),
    (
        b".model m\n.names b\n0\n1\n",
        b"design 6: line 4: rows of both kinds\n",
    ),
    (
        b".model m\n.latch a b as c 0\n",
        b"design 8: line 2: bad latch type\n",
    ),
    (
        b".model m\n.latch a b 0 NIL\n",
        b"design 8: line 2: bad latch type\n",
    ),
    (
        b".model m\n.latch a b x c 7\n",
        b"design 8: line 2: bad latch type\n",
    ),
    (
        b".model m\n.latch a b re\n",
        b"design 9: line 2: bad initial value\n",
    ),
    (
        b".model m\n.latch a b re c 4\n",
        b"design 9: line 2: bad initial value\n",
    ),
    (
        b".model m\n.model n\n.model m\n",
        b"design 10: line 3: duplicate model\n",
    ),
    (
        b".model m\n.inputs a b\n.outputs a\n.inputs c a\n",
        b"design 11: line 4: duplicate port\n",
    ),
    (
        b".model m\n.clock c c\n",
        b"design 11: line 2: duplicate port\n",
    ),
    (
        b".model m\n.subckt n a=b a=c\n",
        b"design 12: line 2: bad binding\n",
    ),
    (
        b".model m\n.subckt n =b\n",
        b"design 12: line 2: bad binding\n",
    ),
    (
        b".model m\n.subckt n a\\\n=\n.gate\n",
        b"design 12: line 2: bad binding\n",
    ),
];

#[test]
fn each_fault_has_its_line(rt: HostRuntime) -> Result<(), Fail> {
    assert_all(&rt, rt.alloc(), FAULTS)?;
    Ok(())
}

/// Texts, and the design of each, written plainly.
const DESIGNS: &[(&[u8], &[u8])] = &[
    (b".model m", b"m;;|"),
    (b".model .model", b".model;;|"),
    (b".model m\n.end\n.model n\n", b"m;;|n;;|"),
    (b".model m\n.model n\n.end x y\n", b"m;;|n;;|"),
    // ports over several lines, and the three lists apart
    (
        b".model m\n.inputs a b\n.outputs a\n.clock a\n.inputs c\n.outputs\n",
        b"m a b c; a; a|",
    ),
    // tables of both kinds, without rows and without inputs
    (
        b".model m\n.names a b c\n1- 1\n01 1\n",
        b"m;;|2 a b>c 1-: 01:1|",
    ),
    (b".model m\n.names a b\n0 0\n", b"m;;|2 a>b 0:0|"),
    (b".model m\n.names a b\n", b"m;;|2 a>b1|"),
    (
        b".model m\n.names b\n1\n.names c\n0\n",
        b"m;;|2>b :1|4>c :0|",
    ),
    (
        b".model m\n.names a a b\n11 1\n.end\n",
        b"m;;|2 a a>b 11:1|",
    ),
    // latches of two to five words
    (
        b".model m\n.latch a b\n.latch a c 0\n.latch a d re k\n.latch a e fe NIL 1\n.latch a f re k 2\n.latch a g 3\n",
        b"m;;|2 a~bu?|3 a~cu0|4 a~drk?|5 a~ef1|6 a~frk?|7 a~gu?|",
    ),
    // a binding is cut at its first `=`
    (b".model m\n.subckt n a=b=c d==\n", b"m;;|2 n a<b=c d<=|"),
    (b".model m\n.subckt n\n", b"m;;|2 n|"),
    // continued ports, rows and bindings; comments between
    (
        b"# x\n.model m # y\n.inputs a \\ # z\n b\n.names a b \\\nc\n1\\\n1 1\n# w\n10 \\\n 1\n.subckt n x=\\\ny\n",
        b"m a b;;|5 a b>c 11: 10:1|12 n x<y|",
    ),
    (
        b".model m\r\n.inputs a\r\n.names a b\r\n1 1\r\n.end",
        b"m a;;|3 a>b 1:1|",
    ),
    // bytes 0 and 255 in names
    (
        b".model \x00\n.inputs \xff \x00\xff\n",
        b"\x00 \xff \x00\xff;;|",
    ),
];

#[test]
fn designs_are_read(rt: HostRuntime) -> Result<(), Fail> {
    assert_all(&rt, rt.alloc(), DESIGNS)?;
    Ok(())
}

/// A model with a table of so many inputs.
fn wide_table(alloc: Global, inputs: usize) -> Result<Vec<u8>, AllocError> {
    let mut text = b".model m\n.names".to_vec(alloc)?;
    for _ in 0..inputs {
        text.extend_from_slice(b" a")?;
    }
    text.extend_from_slice(b" b\n")?;
    Ok(text)
}

#[test]
fn a_table_has_at_most_128_inputs(rt: HostRuntime) -> Result<(), Fail> {
    let alloc = rt.alloc();
    let text = wide_table(alloc, 128)?;
    // it is read, and has no inputs of its own
    assert_number(&rt, b"128", input_count(alloc, &text), Some(0));
    let text = wide_table(alloc, 129)?;
    assert_shown(
        &rt,
        alloc,
        &text,
        b"design 7: line 2: more than 128 inputs\n",
    )?;
    Ok(())
}

/// A model with a comment, of so many bytes.
fn text_of(alloc: Global, bytes: usize) -> Result<Vec<u8>, AllocError> {
    let mut text = b".model m\n#".to_vec(alloc)?;
    text.resize(bytes, b'x')?;
    Ok(text)
}

/// Asserts what the design of such a text is, or the message of the fault.
fn assert_filled(
    rt: &impl Abort,
    alloc: Global,
    bytes: usize,
    wanted: &[u8],
) -> Result<(), AllocError> {
    let text = text_of(alloc, bytes)?;
    assert_shown(rt, alloc, &text, wanted)
}

#[test]
fn a_text_has_at_most_16777216_bytes(rt: HostRuntime) -> Result<(), Fail> {
    assert_filled(&rt, rt.alloc(), 16_777_216, b"m;;|")?;
    let wanted = b"design 1: text longer than 16777216 bytes\n";
    assert_filled(&rt, rt.alloc(), 16_777_217, wanted)?;
    Ok(())
}

/// A thousand names of 16 bytes that have one hash in a map whose hasher has no key, as the inputs of a model.
fn colliding_names(alloc: Global) -> Result<Vec<u8>, AllocError> {
    let mut text = b".model m\n.inputs".to_vec(alloc)?;
    for i in 10_000_000..10_001_000 {
        text.push(b' ')?;
        add_number(alloc, &mut text, i)?;
        // the multiplier of that hasher, the least byte first
        text.extend_from_slice(b"\x15\x7c\x4a\x7f\xb9\x79\x37\x9e")?;
    }
    Ok(text)
}

/// The number of inputs of the one model that a text has, where it has no fault.
fn input_count(alloc: Global, text: &[u8]) -> Option<u64> {
    match read(alloc, text) {
        Ok(design) => match design.models() {
            [model] => Some(model.inputs().len() as u64),
            _ => None,
        },
        Err(_) => None,
    }
}

#[test]
fn names_made_to_collide_are_read(rt: HostRuntime) -> Result<(), Fail> {
    let alloc = rt.alloc();
    let mut text = colliding_names(alloc)?;
    assert_number(&rt, b"colliding", input_count(alloc, &text), Some(1000));
    text.extend_from_slice(b" 10000500\x15\x7c\x4a\x7f\xb9\x79\x37\x9e")?;
    let wanted = b"design 11: line 2: duplicate port\n";
    assert_shown(&rt, alloc, &text, wanted)?;
    Ok(())
}
