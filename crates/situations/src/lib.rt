// The situations of a stored sheet, explored in lent tables.
#![tactic(auto)]

ghost use Rattle.explore.specs.Exploration.{explore_tables};
ghost use Rattle.situations.specs.Found.{ExploredSheet, values_list};

// Explores the situations of a stored sheet: how many rows are found, or 0 where none are. The values of its letters are written to `letter_values`.
fn explored(
    sheet: reader::StoredSheet,
    limit: usize,
    letter_values: &mut [i64],
    entries: &mut [u16],
    finals: &mut [u8],
    keys: &mut [u32],
    heads: &mut [u32],
    links: &mut [u32],
) -> usize
    ensures { ExploredSheet sheet letter_values.old limit (explore_tables keys.old heads.old links.old entries.old finals.old) (explore_tables keys.new heads.new links.new entries.new finals.new) result }
{
    let kinds = sheet.kinds;
    let values = sheet.values;
    let starts = sheet.starts;
    let constraints = sheet.constraints.min(32);
    let relations = sheet.relations;
    let lefts = sheet.lefts;
    let rights = sheet.rights;
    let firsts = sheet.firsts.min(8);
    let first_nodes = sheet.first_nodes;
    let streams = sheet.streams.min(8);
    let lows = sheet.lows;
    let highs = sheet.highs;
    let ahead = sheet.ahead.min(6);
    letters::fill_letters(&lows[..streams], &highs[..streams], letter_values);
    explore::explore_stored(
        &kinds,
        &values,
        &starts,
        &relations[..constraints],
        &lefts[..constraints],
        &rights[..constraints],
        &first_nodes[..firsts],
        letter_values,
        streams,
        ahead,
        ahead + sheet.back.min(6),
        sheet.letters as usize,
        limit,
        keys,
        heads,
        links,
        entries,
        finals,
    )
    .unwrap_or(0)
}

// Explores the situations of a stored sheet: their number, with the entries and flags of their rows, or 0 where they are more than the limit. Few
// letters have their values in a small list: clearing a large one takes longer than exploring a small sheet.
pub fn situations(
    sheet: reader::StoredSheet,
    limit: usize,
    entries: &mut [u16],
    finals: &mut [u8],
    keys: &mut [u32],
    heads: &mut [u32],
    links: &mut [u32],
) -> usize
    ensures { ExploredSheet sheet (values_list sheet.letters) limit (explore_tables keys.old heads.old links.old entries.old finals.old) (explore_tables keys.new heads.new links.new entries.new finals.new) result }
{
    if sheet.letters <= 64 {
        let mut few = [0i64; 520];
        return explored(sheet, limit, &mut few, entries, finals, keys, heads, links);
    }
    let mut many = [0i64; 8200];
    explored(sheet, limit, &mut many, entries, finals, keys, heads, links)
}
