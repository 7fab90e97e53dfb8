//! The object machine of a network device: administration commands in, replies and changes of its flow filters out.
//!
//! The commands are the Virtio 1.4 draft's (group administration commands, device capabilities, resource objects);
//! which of them the device has, and its statuses, qualifiers and order of refusals, are this project's own.
//!
//! It promises that [`Device::decide`] and [`Device::commit`] are one step of the machine that cap_table defines: the
//! reply is the verdict's, cut to its room, and the state is the one that the verdict leaves. Every device is valid
//! at every moment, whatever capabilities it was made with. The status is never the one for want of memory, and a
//! command that isn't obeyed changes nothing. All memory is taken by [`Device::new`]. What holds of whole runs is
//! said by the laws: [`runs_are_valid`], [`drivers_stay_within_the_device`], [`named_objects_stay`],
//! [`queries_give_back_what_was_put`], [`destroys_undo_creates`], [`accepted_changes_are_sound`],
//! [`refused_commands_change_nothing`], [`no_reply_is_want_of_memory`].
//!
//! The definitions are cap_table's `States`, `Verdicts`, `Answers` and `Steps`; `DeviceParts` says how a device's parts
//! make its state.
#![tactic(auto)]

mod device;
mod laws;

pub use cap_table::{Effect, Start};
pub use device::{Decision, Device, no_memory};
pub use laws::{
    accepted_changes_are_sound, destroys_undo_creates, drivers_stay_within_the_device,
    named_objects_stay, no_reply_is_want_of_memory, queries_give_back_what_was_put,
    refused_commands_change_nothing, runs_are_valid,
};
