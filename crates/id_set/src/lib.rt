// A set of ids, written to the start of a lent buffer: ascending, without repeats. The places beyond keep their contents.
// Kept (C): the buffer and the number of its ids stand apart: C lends the one and gets the other back
#![tactic(auto)]

ghost use Rattle.std.specs.Prelude.{◌≡◌, ◌∷◌, ◌++◌, ◌+◌, ◌<◌, ◌≤◌, length, take, drop, position, leb};
ghost use Rattle.model.specs.Interact.{insert_id, insert_some};
ghost use Rattle.id_set.specs.Ids.{Written, Place, stands_at};

// The first place whose id is not below this one, if there is one.
fn find_from(ids: &[u64], id: u64) -> Option<usize>
    ensures { result ≡ position (λ x. leb id x) ids.now }
{
    ids.iter().position(|x| id <= *x)
}

// Where an id stands among the first `count`, or would: the first place whose id is not below it.
fn place_of(ids: &[u64], count: usize, id: u64) -> usize
    requires { count ≤ length ids.now }
    ensures { Place id (take count ids.now) result }
{
    find_from(&ids[..count], id).unwrap_or(count)
}

// The ids from place `at` on move up by one, and `id` comes there.
// Kept (plain): not the lists by id of touches (sorted.rt): `put_in` there says nothing of the places beyond the list, which keep their contents here, and
// its items have an id, where these are ids
fn shift_in(ids: &mut [u64], at: usize, count: usize, id: u64)
    requires { (at ≤ count) × (count < length ids.old) }
    ensures { ids.new ≡ (take at ids.old ++ (id ∷ drop at (take count ids.old))) ++ drop (count + 1) ids.old }
{
    ids.copy_within(at..count, at + 1);
    ids[at] = id;
}

fn stands_at(ids: &[u64], count: usize, at: usize, id: u64) -> bool
    requires { count ≤ length ids.now }
    ensures { result ≡ stands_at id (take count ids.now) at }
{
    at < count && ids[at] == id
}

// The id among the first `count`; the answer is how many there are then.
pub fn insert_id(ids: &mut [u64], count: usize, id: u64) -> usize
    requires { count < length ids.old }
    ensures { Written (insert_id id (take count ids.old)) ids.old result ids.new }
{
    let at = place_of(ids, count, id);
    if stands_at(ids, count, at, id) {
        return count;
    }
    shift_in(ids, at, count, id);
    count + 1
}

pub fn insert_some(ids: &mut [u64], count: usize, id: Option<u64>) -> usize
    requires { count < length ids.old }
    ensures { Written (insert_some id (take count ids.old)) ids.old result ids.new }
{
    // Kept (plain): a match: a closure for `map_or` would take the buffer along, and need the contract of `insert_id` once more
    match id {
        None => count,
        Some(d) => insert_id(ids, count, d),
    }
}
