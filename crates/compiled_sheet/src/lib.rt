// The answer of a compile with what a host needs of the sheet to follow its table: the number of letters, and the streams.
#![tactic(auto)]

ghost use Rattle.std.specs.Prelude.{◌≡◌};
ghost use Rattle.compiled_sheet.specs.Told.{sheet_streams, told_with, told, told_with_play, compiled_in};

use compiled::Compiled;
use streams::StreamsDescription;

// The refusal's number or 0, the numbers of states and situations, and with refusal 0 the number of letters and the streams. Laid out as in C, so that an
// exported function can give it back.
#[repr(C)]
#[derive(Clone, Copy)]
pub struct CompiledSheet {
    pub refusal: u32,
    pub states: u32,
    pub situations: u32,
    pub letters: u32,
    pub streams: StreamsDescription,
}

// The streams of a stored sheet.
pub fn stored_streams(sheet: reader::StoredSheet) -> StreamsDescription
    ensures { result ≡ sheet_streams sheet }
{
    // An array that is put into a literal straight from another struct's field gets no generated proof.
    let names = sheet.names;
    let lengths = sheet.lengths;
    let lows = sheet.lows;
    let highs = sheet.highs;
    let kinds = sheet.stream_kinds;
    StreamsDescription {
        count: sheet.streams,
        names,
        lengths,
        lows,
        highs,
        kinds,
    }
}

fn with_streams(compiled: Compiled, letters: u32, streams: StreamsDescription) -> CompiledSheet
    ensures { result ≡ told_with compiled letters streams }
{
    CompiledSheet {
        refusal: compiled.refusal,
        states: compiled.states,
        situations: compiled.situations,
        letters,
        streams,
    }
}

// The answer of a compile with what is told of the sheet.
pub fn with_sheet(sheet: reader::StoredSheet, compiled: Compiled) -> CompiledSheet
    ensures { result ≡ told sheet compiled }
{
    if compiled.refusal == 0 {
        with_streams(compiled, sheet.letters, stored_streams(sheet))
    } else {
        with_streams(compiled, 0, StreamsDescription::none())
    }
}

// The answer of the compile alone.
pub fn answer(told: CompiledSheet) -> Compiled
    ensures { result ≡ compiled_in told }
{
    Compiled {
        refusal: told.refusal,
        states: told.states,
        situations: told.situations,
    }
}

// The answer of a compile with a play table: after the compile's own numbers 16, with which nothing is told, where no solution can be forced.
pub fn with_play(told: CompiledSheet, forced: bool) -> CompiledSheet
    ensures { result ≡ told_with_play told forced }
{
    if told.refusal != 0 || forced {
        return told;
    }
    with_streams(compiled::refused(16), 0, StreamsDescription::none())
}
