//! The places of notes, by the SEQs with which they come (UPnP Device Architecture 2.0 on event keys; how far a place may be is
//! this project's profile).

ghost use Rattle.std.specs.Prelude.{◌≡◌, ◌+◌, ◌-◌, ◌^◌, ◌<◌, ◌≤◌, max, cond, nat_le, Some, None, IfSome};
ghost use Rattle.cds_commands.specs.Places.{seq_at, reach, place_from, within, place_of};

/// From this place on no next place is known.
const PLACE_LIMIT: u64 = 9_223_372_036_854_775_808;

/// Returns the SEQ of a place.
pub fn seq_at(wrap: u32, place: u64) -> u32
    requires { 0 < wrap }
    ensures { result ≡ seq_at wrap place }
{
    if place == 0 {
        return 0;
    }
    ((place - 1) % u64::from(wrap)) as u32 + 1
}

/// Returns how far from the next place a place may be: a quarter of the wrap, rounded up.
fn reach(wrap: u32) -> u64
    ensures reach { result ≡ reach wrap }
    ensures few { result ≤ 2 ^ 30 }
{
    (u64::from(wrap) + 3) / 4
}

/// Returns the first place that is within reach of the next one, except place 0.
fn lowest(wrap: u32, next: u64) -> u64
    ensures lowest { result ≡ max 1 (next - reach wrap) }
    ensures some { 0 < result }
    ensures most { result ≤ next + 1 }
{
    1_u64.max(next.saturating_sub(reach(wrap)))
}

/// Returns the least place from one on that has a SEQ. Place and SEQ are above 0.
fn place_from(wrap: u32, low: u64, seq: u32) -> u64
    requires wrap { 0 < wrap }
    requires low { 0 < low }
    requires few { low ≤ 2 ^ 63 }
    requires seq { 0 < seq }
    ensures { result ≡ place_from wrap low seq }
{
    let wrap = u64::from(wrap);
    let passed = (low - 1) % wrap;
    low + (u64::from(seq) - 1 + (wrap - passed)) % wrap
}

/// Returns a place, if it is not past another.
fn within(most: u64, place: u64) -> Option<u64>
    ensures within { result ≡ within most place }
    ensures most { IfSome result (λ place. place ≤ most) }
{
    if place <= most { Some(place) } else { None }
}

/// Returns place 0, if it is within reach of the next place.
fn first_place(wrap: u32, next: u64) -> Option<u64>
    ensures first { result ≡ cond (nat_le next (reach wrap)) (Some 0) None }
    ensures most { IfSome result (λ place. place ≤ next) }
{
    if next <= reach(wrap) { Some(0) } else { None }
}

/// Returns the place with a SEQ that is within reach of the next place. There is at most one. From place 2^63 on no place is known.
pub fn place_of(wrap: u32, next: u64, seq: u32) -> Option<u64>
    requires { 0 < wrap }
    ensures place { result ≡ place_of wrap next seq }
    ensures room { IfSome result (λ place. place < 2 ^ 64 - 1) }
{
    if PLACE_LIMIT <= next {
        return None;
    }
    if seq == 0 {
        return first_place(wrap, next);
    }
    if wrap < seq {
        return None;
    }
    let low = lowest(wrap, next);
    within(next + reach(wrap), place_from(wrap, low, seq))
}
