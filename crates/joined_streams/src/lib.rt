// The streams of two sheets on one river (document 02, S-9): whether they can be one river's, the joined streams, and the letter of either sheet that each
// joined letter has.
#![tactic(auto)]

ghost use Rattle.std.specs.Option.{MatchOption};
ghost use Rattle.std.specs.Prelude.{◌≡◌, ℕ, ◌*◌, ◌<◌, ◌≤◌, get_or};
ghost use Rattle.std.proofs.lemmas.List.Edits.{sets};
ghost use Rattle.basics.specs.Answers.{Says};
ghost use Rattle.basics.specs.Count.{NoRepeats};
ghost use Rattle.meaning.specs.Letter.{letter_count};
ghost use Rattle.sheet.specs.Form.{names_of};
ghost use Rattle.sheet.specs.Names.{name_in};
ghost use Rattle.streams.specs.Description.{stream_in, description_of};
ghost use Rattle.joined_streams.specs.Joined.{place_of, cut_number, IsAlike};
ghost use Rattle.joined_streams.specs.Describing.{with_described, with_others, joined_description, AlikeAt, ArePlaces, ArePicked, CanCut, HoldsCuts};
ghost use Rattle.joined_streams.specs.Outcome.{refused_streams, Joinable, BoundsOutcome, JoinedStreamsOutcome};

use streams::StreamsDescription;

// The refusal or 0; with 0 the number of joined letters, the joined streams, and the number of each joined letter's cut to the left and to the right streams.
#[derive(Clone, Copy)]
pub struct JoinedStreams {
    pub refusal: u32,
    pub letters: u32,
    pub streams: StreamsDescription,
    pub left: [u16; 1024],
    pub right: [u16; 1024],
}

// The place among some streams of the first one that has a stream's name.
fn place_of(
    streams: &StreamsDescription,
    other: &StreamsDescription,
    stream: usize,
) -> Option<usize>
    requires { (streams.now.count ≤ 8) × (stream < 8) }
    ensures { MatchOption result (place_of (description_of streams.now) (stream_in other.now stream).name ≡ streams.now.count) (λ place. (place < streams.now.count) × (place ≡ place_of (description_of streams.now) (stream_in other.now stream).name)) }
{
    (0..streams.count).find(|&place| streams.name(place) == other.name(stream))
}

// Whether two streams have the same range and kind.
fn alike(a: &StreamsDescription, i: usize, b: &StreamsDescription, j: usize) -> bool
    requires { (i < 8) × (j < 8) }
    ensures { Says result (IsAlike (stream_in a.now i) (stream_in b.now j)) }
{
    given_tables::same_range(a.lows[i], a.highs[i], b.lows[j], b.highs[j])
        && given_tables::same_kind(a.kinds[i], b.kinds[j])
}

// Whether a stream of the right description is alike the left one with its name, if there is one.
fn shared_alike_at(left: &StreamsDescription, right: &StreamsDescription, stream: usize) -> bool
    requires { (left.now.count ≤ 8) × (stream < 8) × NoRepeats (names_of (description_of left.now)) }
    ensures { Says result (AlikeAt (description_of left.now) (stream_in right.now stream)) }
{
    match place_of(left, right, stream) {
        Some(place) => alike(left, place, right, stream),
        None => true,
    }
}

// Whether no shared name has another range or kind.
fn shared_alike(left: &StreamsDescription, right: &StreamsDescription) -> bool
    requires { (left.now.count ≤ 8) × (right.now.count ≤ 8) × NoRepeats (names_of (description_of left.now)) }
    ensures { Says result ((k : ℕ) → k < right.now.count → AlikeAt (description_of left.now) (stream_in right.now k)) }
{
    (0..right.count).all(|stream| shared_alike_at(left, right, stream))
}

// The names with that of one more stream behind them.
fn with_name(to: &StreamsDescription, from: &StreamsDescription, stream: usize) -> [u8; 64]
    requires { (to.now.count < 8) × (stream < 8) }
    ensures { result ≡ sets to.now.names (to.now.count * 8) (name_in from.now.names from.now.lengths stream) }
{
    let name = from.name(stream);
    let start = to.count * 8;
    let end = start + name.len();
    let mut names = to.names;
    names[start..end].copy_from_slice(name);
    names
}

// The streams with one more behind them; more than eight are counted and not described.
fn with_stream(
    to: &StreamsDescription,
    from: &StreamsDescription,
    stream: usize,
) -> StreamsDescription
    requires { (to.now.count ≤ 16) × (stream < 8) }
    ensures { result ≡ with_described to.now from.now stream }
{
    let at = to.count;
    let mut more = *to;
    more.count = at + 1;
    if 8 <= at {
        return more;
    }
    more.names = with_name(to, from, stream);
    more.lengths[at] = from.lengths[stream];
    more.lows[at] = from.lows[stream];
    more.highs[at] = from.highs[stream];
    more.kinds[at] = from.kinds[stream];
    more
}

// The streams with those of `from` behind them whose names `known` lacks.
fn with_others(
    to: &StreamsDescription,
    known: &StreamsDescription,
    from: &StreamsDescription,
) -> StreamsDescription
    requires { (to.now.count ≤ 8) × (known.now.count ≤ 8) × (from.now.count ≤ 8) }
    ensures { result ≡ with_others known.now from.now to.now 0 from.now.count }
{
    let mut all = *to;
    for stream in 0..from.count {
        if place_of(known, from, stream).is_none() {
            all = with_stream(&all, from, stream);
        }
    }
    all
}

fn joined_description(left: &StreamsDescription, right: &StreamsDescription) -> StreamsDescription
    requires { (left.now.count ≤ 8) × (right.now.count ≤ 8) }
    ensures { result ≡ joined_description left.now right.now }
{
    let none = StreamsDescription::none();
    let first = with_others(&none, &none, left);
    with_others(&first, left, right)
}

// The place of each stream among the joined ones; 0 behind the streams.
fn places_of(joined: &StreamsDescription, own: &StreamsDescription) -> [usize; 8]
    requires { CanCut joined.now own.now }
    ensures { ArePlaces joined.now own.now result }
{
    let mut places = [0; 8];
    for stream in 0..own.count {
        places[stream] = place_of(joined, own, stream).unwrap_or(0);
    }
    places
}

// The values at these places.
fn picked(values: [i64; 8], places: [usize; 8]) -> [i64; 8]
    requires { (k : ℕ) → get_or places k 0 < 8 }
    ensures { ArePicked values places result }
{
    let mut found = [0; 8];
    for i in 0..8 {
        found[i] = values[places[i]];
    }
    found
}

// The number of the cut of a joined letter to a sheet's own streams.
fn cut_of(
    joined: &StreamsDescription,
    own: &StreamsDescription,
    places: [usize; 8],
    letter: u32,
) -> u32
    requires { CanCut joined.now own.now × ArePlaces joined.now own.now places × (letter < letter_count (description_of joined.now)) }
    ensures { result ≡ cut_number (description_of joined.now) (description_of own.now) letter }
{
    let mut values = [0; 8];
    letters::letter_values(
        &joined.lows[..joined.count],
        &joined.highs[..joined.count],
        letter,
        &mut values,
    );
    let own_values = picked(values, places);
    letters::letter_number(
        &own.lows[..own.count],
        &own.highs[..own.count],
        &own_values[..own.count],
    )
}

// The numbers of the cuts of all joined letters; 0 behind them.
fn cuts_of(joined: &StreamsDescription, own: &StreamsDescription, letters: u32) -> [u16; 1024]
    requires { CanCut joined.now own.now × (letters ≡ letter_count (description_of joined.now)) }
    ensures { HoldsCuts (description_of joined.now) (description_of own.now) result }
{
    let places = places_of(joined, own);
    let mut cuts = [0; 1024];
    for letter in 0..letters {
        cuts[letter as usize] = cut_of(joined, own, places, letter) as u16;
    }
    cuts
}

fn refused(refusal: u32) -> JoinedStreams
    ensures { result ≡ refused_streams refusal }
{
    JoinedStreams {
        refusal,
        letters: 0,
        streams: StreamsDescription::none(),
        left: [0; 1024],
        right: [0; 1024],
    }
}

// The joined streams of two descriptions that fit and whose shared names are alike, or 7.
fn joined(left: StreamsDescription, right: StreamsDescription) -> JoinedStreams
    requires { Joinable left right }
    ensures { BoundsOutcome left right result }
{
    let streams = joined_description(&left, &right);
    let count = streams.count;
    if 8 < count {
        return refused(7);
    }
    let letters = letters::letter_count(&streams.lows[..count], &streams.highs[..count]);
    if 1024 < letters {
        return refused(7);
    }
    JoinedStreams {
        refusal: 0,
        letters,
        streams,
        left: cuts_of(&streams, &left, letters),
        right: cuts_of(&streams, &right, letters),
    }
}

// Joins two descriptions of streams, with the letters that they are said to make: 11 where an accepted sheet could not have them, 17 for a shared name with
// another range or kind, 7 for too many streams or letters together.
pub fn join_streams(
    left: StreamsDescription,
    left_letters: usize,
    right: StreamsDescription,
    right_letters: usize,
) -> JoinedStreams
    ensures { JoinedStreamsOutcome left right left_letters right_letters result }
{
    if !streams::streams_fit(left, left_letters) {
        return refused(11);
    }
    if !streams::streams_fit(right, right_letters) {
        return refused(11);
    }
    if !shared_alike(&left, &right) {
        return refused(17);
    }
    joined(left, right)
}
