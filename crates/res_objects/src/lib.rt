//! Maps of bounded size for the resource objects of a device: each object is held under an id that the driver chose.
//!
//! The objects are those of the Virtio 1.4 draft's administration commands (create, modify, query and destroy of a
//! resource object); the draft leaves open how a device keeps them, so the map is this project's own.
//!
//! [`ObjMap`] promises a finite map: `create` adds an entry, `modify` puts another object in its place and gives the
//! old one, `query` reads one, `destroy` gives one back, and `at` is the entry with the place-th least id. Each
//! refusal comes exactly where its case holds, and leaves the map as it was.
//!
//! All room is reserved by [`ObjMap::new`]. No later call asks for memory, so a device that was made can't fail for
//! want of it. That is why the map is a sorted index over reserved slots and not a tree: a tree would take a node now
//! and then, or would need its nodes reserved and linked by hand. In the index the entries stand by rising id for
//! free, an id is found by halving, and what moves at a create or a destroy is the index's 8-byte entries and never
//! an object.
//!
//! The modules, lowest first: `slots` (the objects in their slots, with a list of the free ones), `id_index` (from
//! ids to slots), `obj_map` (the map over both). The definitions that the contracts cite stand in
//! `specs/BoundedMap.antt` (what a map is and what changes it) and `specs/Answers.antt` (what a create answers);
//! `specs/Linked.antt` says how an index and slots make a map.
#![tactic(auto)]

mod error;
mod id_index;
mod obj_map;
mod slots;

pub use error::ObjErr;
pub use obj_map::ObjMap;
