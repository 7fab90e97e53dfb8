//! Maps of objects that are kept with how many rules name them.

ghost use Rattle.std.specs.Prelude.{◌≡◌, ℕ, ◌+◌, ◌<◌, ◌^◌, ◌==◌, if◌then◌else◌, IsSome, true, slice_get};
ghost use Rattle.std.specs.Option.{option_copied, option_map};
ghost use Rattle.ff_headers.specs.Objects.{object_under, IsById};
ghost use Rattle.ff_headers.specs.Changes.{put, without, has_room};
ghost use Rattle.res_objects.specs.BoundedMap.{with_object, without_object, deref_object};
ghost use Rattle.ff_store.specs.Counts.{objects_of, count_of};

use ff_headers::Selectors;
use res_objects::ObjMap;

/// An object, and how many rules name it.
#[derive(Drop)]
pub(crate) struct Counted<T> {
    object: T,
    rules: u32,
}

/// A type whose copies take no memory.
pub(crate) trait CopiesFree {
    /// An equal value.
    fn copied(&self) -> Self
        ensures { result ≡ self.now };
}

impl CopiesFree for u16 {
    fn copied(&self) -> u16 {
        *self
    }
}

impl CopiesFree for Selectors {
    fn copied(&self) -> Selectors {
        self.copy()
    }
}

/// The object under the id.
pub(crate) fn object_of<T: Drop>(map: &ObjMap<Counted<T>>, id: u32) -> Option<&T>
    ensures { option_copied result ≡ object_under (objects_of map.now.entries) id }
{
    match map.query(id) {
        Some(counted) => Some(&counted.object),
        None => None,
    }
}

/// The entry at a place, by rising id.
pub(crate) fn object_at<T: Drop>(map: &ObjMap<Counted<T>>, place: usize) -> Option<(u32, &T)>
    ensures { option_map deref_object result ≡ slice_get (objects_of map.now.entries) place }
{
    match map.at(place) {
        Some((id, counted)) => Some((id, &counted.object)),
        None => None,
    }
}

/// How many rules name the id: none where it isn't held.
pub(crate) fn count_of<T: Drop>(map: &ObjMap<Counted<T>>, id: u32) -> u32
    ensures { result ≡ count_of map.now.entries id }
{
    match map.query(id) {
        Some(counted) => counted.rules,
        None => 0,
    }
}

/// One rule more names the id.
pub(crate) fn raise<T: CopiesFree + Drop>(map: &mut ObjMap<Counted<T>>, id: u32)
    requires held { IsSome (object_under (objects_of map.old.entries) id) }
    requires fits { count_of map.old.entries id + 1 < 2 ^ 32 }
    ensures objects { objects_of map.new.entries ≡ objects_of map.old.entries }
    ensures counts { (q : ℕ) → count_of map.new.entries q ≡ count_of map.old.entries q + (if id == q then 1 else 0) }
    ensures room { map.new.room ≡ map.old.room }
{
    let named = map.query(id).unwrap();
    let rules = named.rules + 1;
    let object = named.object.copied();
    map.modify(id, Counted { object, rules }).unwrap();
}

/// One rule fewer names the id.
pub(crate) fn lower<T: CopiesFree + Drop>(map: &mut ObjMap<Counted<T>>, id: u32)
    requires { 0 < count_of map.old.entries id }
    ensures objects { objects_of map.new.entries ≡ objects_of map.old.entries }
    ensures counts { (q : ℕ) → count_of map.new.entries q + (if id == q then 1 else 0) ≡ count_of map.old.entries q }
    ensures room { map.new.room ≡ map.old.room }
{
    let named = map.query(id).unwrap();
    let rules = named.rules - 1;
    let object = named.object.copied();
    map.modify(id, Counted { object, rules }).unwrap();
}

/// Holds the object under the id, which keeps its count.
pub(crate) fn put_object<T: Drop>(map: &mut ObjMap<Counted<T>>, id: u32, object: T)
    requires { has_room (objects_of map.old.entries) id map.old.room ≡ true }
    ensures objects { objects_of map.new.entries ≡ put (objects_of map.old.entries) id object }
    ensures counts { (q : ℕ) → count_of map.new.entries q ≡ count_of map.old.entries q }
    ensures room { map.new.room ≡ map.old.room }
{
    let rules = count_of(map, id);
    put(map, id, Counted { object, rules });
}

/// Removes an id that no rule names.
pub(crate) fn remove_object<T: Drop>(map: &mut ObjMap<Counted<T>>, id: u32)
    requires { count_of map.old.entries id ≡ 0 }
    ensures objects { objects_of map.new.entries ≡ without (objects_of map.old.entries) id }
    ensures counts { (q : ℕ) → count_of map.new.entries q ≡ count_of map.old.entries q }
    ensures room { map.new.room ≡ map.old.room }
{
    remove(map, id);
}

/// Holds the object under the id, and gives the one that stood there.
pub(crate) fn put<T: Drop>(map: &mut ObjMap<T>, id: u32, object: T) -> Option<T>
    requires { has_room map.old.entries id map.old.room ≡ true }
    ensures entries { map.new ≡ with_object map.old id object }
    ensures replaced { result ≡ object_under map.old.entries id }
{
    if map.query(id).is_some() {
        map.modify(id, object).ok()
    } else {
        map.create(id, object).unwrap();
        None
    }
}

/// Removes the id, where it is held, and gives its object.
pub(crate) fn remove<T: Drop>(map: &mut ObjMap<T>, id: u32) -> Option<T>
    ensures entries { map.new ≡ without_object map.old id }
    ensures removed { result ≡ object_under map.old.entries id }
    ensures rising { IsById map.old.entries }
{
    let _rising = map.len();
    map.destroy(id).ok()
}
