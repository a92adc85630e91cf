// A case: how a line is read as one, and how it is run.
use case_text::{Bytes, Unreadable, Words};
use job::Version;
use record_cases::{CheckedVersion, Form, run_record};
use spec::Shape;
use std::io;
use test_support::lengths::Rows;
use vectors_calls::{Call, Inputs, ListCall, run_case};
use vectors_probes::Probe;

#[derive(Drop)]
pub enum Case {
    // Commit, open and reconstruct; where a byte of the opening is flipped before reconstruct, its place.
    Calls(Call, Inputs, Option<usize>),
    List(ListCall, Shape, Bytes),
    Record(Call, Inputs, Form, CheckedVersion),
    // One call on buffers of which one may have a wrong length.
    ProbeCommit(Call, Probe),
    ProbeOpen(Call, Probe),
    ProbeReconstruct(Call, Probe),
    ProbeList(ListCall, Shape, Probe),
}

impl Case {
    // A line as the case that it is, where it has that case's form to its end.
    pub fn read(line: &[u8]) -> Result<Case, Unreadable> {
        let text = std::str::from_utf8(line).map_err(|_| Unreadable)?;
        let mut words = Words::of(text);
        let name = words.word()?;
        let case = Case::named(name, &mut words)?;
        words.end()?;
        Ok(case)
    }

    // The case of a name, read from the words behind the name.
    fn named(name: &str, words: &mut Words<'_>) -> Result<Case, Unreadable> {
        match name {
            "calls" => calls(whole_rows(words)?, words),
            "flipped" => flipped(words),
            "stretch" => calls(stretch(words)?, words),
            "decode" => list(ListCall::Decode, words),
            "plan" => list(ListCall::Plan, words),
            "record" => record(Form::Whole, words),
            "named" => record(Form::Named, words),
            "prefixes" => record(Form::Prefixes, words),
            "flips" => record(Form::Flips, words),
            "pairs" => record(Form::Pairs, words),
            "probe_commit" => probe_commit(whole_rows(words)?, words),
            "probe_commit_stretch" => probe_commit(stretch(words)?, words),
            "probe_open" => probe_open(words),
            "probe_reconstruct" => probe_reconstruct(whole_rows(words)?, words),
            "probe_reconstruct_stretch" => probe_reconstruct(stretch(words)?, words),
            "probe_decode" => probe_list(ListCall::Decode, words),
            "probe_plan" => probe_list(ListCall::Plan, words),
            _ => Err(Unreadable),
        }
    }

    // Makes the calls of the case, and prints what they answered and wrote.
    pub fn run(self, rt: &(impl Print + AllocGlobal)) -> io::Result<()> {
        match self {
            Case::Calls(call, inputs, flip) => run_case(rt, &call, &inputs, flip),
            Case::List(list, shape, challenge) => list.run(rt, shape, &challenge),
            Case::Record(call, inputs, form, version) => run_record(
                rt, &call, &inputs, form, version,
            ),
            Case::ProbeCommit(call, probe) => probe.commit(rt, call),
            Case::ProbeOpen(call, probe) => probe.open(rt, call),
            Case::ProbeReconstruct(call, probe) => probe.reconstruct(rt, call),
            Case::ProbeList(list, shape, probe) => probe.list(rt, list, shape),
        }
    }
}

// The version of FAEST.
fn version(words: &mut Words<'_>) -> Result<Version, Unreadable> {
    match words.number()? {
        1 => Ok(Version::One),
        2 => Ok(Version::Two),
        _ => Err(Unreadable),
    }
}

// The version of what only version 2 has.
fn second_version(words: &mut Words<'_>) -> Result<Version, Unreadable> {
    match version(words)? {
        Version::One => Err(Unreadable),
        Version::Two => Ok(Version::Two),
    }
}

// VERSION SHAPE ROWBITS: a call of whole rows.
fn whole_rows(words: &mut Words<'_>) -> Result<Call, Unreadable> {
    let version = version(words)?;
    let shape = words.shape()?;
    let rows = Rows::whole(words.number()?);
    Ok(Call::exact(version, shape, rows))
}

// 2 SHAPE ROWBITS FIRST WIDTH: a call of a stretch.
fn stretch(words: &mut Words<'_>) -> Result<Call, Unreadable> {
    let version = second_version(words)?;
    let shape = words.shape()?;
    let rows = Rows::part(words.number()?, words.number()?, words.number()?);
    Ok(Call::exact(version, shape, rows))
}

// ROOT IV CHALLENGE.
fn inputs(words: &mut Words<'_>) -> Result<Inputs, Unreadable> {
    Ok(Inputs {
        root: words.bytes()?,
        iv: words.bytes()?,
        challenge: words.bytes()?,
    })
}

// The three calls, behind the words of their call: ROOT IV CHALLENGE.
fn calls(call: Call, words: &mut Words<'_>) -> Result<Case, Unreadable> {
    Ok(Case::Calls(call, inputs(words)?, None))
}

// VERSION SHAPE ROWBITS ROOT IV CHALLENGE FLIP.
fn flipped(words: &mut Words<'_>) -> Result<Case, Unreadable> {
    let call = whole_rows(words)?;
    let inputs = inputs(words)?;
    Ok(Case::Calls(call, inputs, Some(words.number()?)))
}

// 2 SHAPE CHALLENGE.
fn list(list: ListCall, words: &mut Words<'_>) -> Result<Case, Unreadable> {
    second_version(words)?;
    Ok(Case::List(list, words.shape()?, words.bytes()?))
}

// VERSION SHAPE ROWBITS ROOT IV CHALLENGE, with the version of the record: 1, or that in which the shape is written.
fn record(form: Form, words: &mut Words<'_>) -> Result<Case, Unreadable> {
    let number = words.number()?;
    let shape = words.shape()?;
    let written = if shape.kind == 1 { 3 } else { 2 };
    let version = if number == 1 {
        CheckedVersion::One
    } else if number == written {
        CheckedVersion::Written
    } else {
        return Err(Unreadable);
    };
    let call = Call::exact(Version::Two, shape, Rows::whole(words.number()?));
    Ok(Case::Record(call, inputs(words)?, form, version))
}

// A number that is a byte.
fn byte(words: &mut Words<'_>) -> Result<u8, Unreadable> {
    u8::try_from(words.number()?).map_err(|_| Unreadable)
}

// WHICH MORE.
fn probe(byte: u8, words: &mut Words<'_>) -> Result<Probe, Unreadable> {
    Ok(Probe {
        which: words.number()?,
        longer: words.number()? != 0,
        byte,
        set: 0,
    })
}

// Behind the words of the call: WHICH MORE.
fn probe_commit(call: Call, words: &mut Words<'_>) -> Result<Case, Unreadable> {
    Ok(Case::ProbeCommit(call, probe(0, words)?))
}

// VERSION SHAPE BYTE WHICH MORE.
fn probe_open(words: &mut Words<'_>) -> Result<Case, Unreadable> {
    let version = version(words)?;
    let call = Call::exact(version, words.shape()?, Rows::whole(8));
    let byte = byte(words)?;
    Ok(Case::ProbeOpen(call, probe(byte, words)?))
}

// Behind the words of the call: BYTE WHICH MORE SET.
fn probe_reconstruct(call: Call, words: &mut Words<'_>) -> Result<Case, Unreadable> {
    let byte = byte(words)?;
    let mut probe = probe(byte, words)?;
    probe.set = words.number()?;
    Ok(Case::ProbeReconstruct(call, probe))
}

// 2 SHAPE BYTE WHICH MORE.
fn probe_list(list: ListCall, words: &mut Words<'_>) -> Result<Case, Unreadable> {
    second_version(words)?;
    let shape = words.shape()?;
    let byte = byte(words)?;
    Ok(Case::ProbeList(list, shape, probe(byte, words)?))
}
