// Lists by ascending id, in the first places of an array: a device's touches, and the devices.
ghost use Rattle.std.specs.Prelude.{◌≡◌, ℕ, ◌+◌, ◌<◌, ◌≤◌, length, take, position, leb};
ghost use Rattle.touches.specs.Touches.{place, has, is_at, inserted_at};

// What is found by its id.
pub trait HasId: Copy {
    ghost id_of: { Self → ℕ };

    fn id(&self) -> u64
        ensures { result ≡ id_of self.now };
}

// The first place with this id or a greater one, if there is one.
fn find_from<T: HasId>(items: &[T], id: u64) -> Option<usize>
    ensures { result ≡ position (λ u. leb id (T.id_of u)) items.now }
{
    items.iter().position(|x| id <= x.id())
}

// That place, or the number of items: where an item with this id stands, or would.
pub fn place_of<T: HasId>(items: &[T], id: u64) -> usize
    ensures { result ≡ place T.id_of id items.now }
{
    find_from(items, id).unwrap_or(items.len())
}

// The first place with this id, if there is one.
pub fn find<T: HasId>(items: &[T], id: u64) -> Option<usize>
    ensures { result ≡ position (has T.id_of id) items.now }
{
    items.iter().position(|x| x.id() == id)
}

// Has the item at place i this id?
pub fn is_at<T: HasId>(items: &[T], i: usize, id: u64) -> bool
    ensures { result ≡ is_at T.id_of i id items.now }
{
    i < items.len() && id == items[i].id()
}

// The items from place `at` on move up by one, and x comes there.
pub fn put_in<T: Copy>(places: &mut [T], count: usize, at: usize, x: T)
    requires { (at ≤ count) × (count < length places.old) }
    ensures { take (count + 1) places.new ≡ inserted_at at x (take count places.old) }
{
    places.copy_within(at..count, at + 1);
    places[at] = x;
}
