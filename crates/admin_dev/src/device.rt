//! A device that decides on a command, and commits what the command changes.

ghost use Rattle.std.specs.Prelude.{◌≡◌, ◌≢◌, ◌&&◌, not, IfOk};
ghost use Rattle.admin_wire.specs.Replies.{reply_bytes};
ghost use Rattle.admin_wire.specs.declared.command.Command.TheVariants as commands;
ghost use Rattle.cap_table.specs.Answers.{answer_of, answer_to, bare_reply, obeyed, ChangesObjects};
ghost use Rattle.cap_table.specs.CapSets.{is_id_unknown};
ghost use Rattle.cap_table.specs.States.{IsValid, start_state};
ghost use Rattle.cap_table.specs.Statuses.{no_memory};
ghost use Rattle.cap_table.specs.Steps.{OnlyObeyedChanges, IsEffect, status_of, reply_of, effect_of, with_effect};
ghost use Rattle.cap_table.specs.Verdicts.{is_header_cut, is_opcode_unused};
ghost use Rattle.cap_table.specs.declared.answer.Effect.TheVariants as effects;

use admin_wire::{
    CapData, Command, ObjHead, ReplyBytes, WireErr, opcode_of, put_reply, read_command,
};
use arrayvec::ArrayVec;
use cap_table::{
    Answer, DeviceCaps, DriverCaps, Effect, Start, cap_result, has_other_opcode, is_opcode_in,
    list_bytes, may_set, opcode_bytes, opcodes_used,
};
use ff_objects::{Objects, Verdict};
use std::alloc::{AllocError, Global};
use std::marker::Model;

/// The answer to a command: the reply's bytes, and the effect to commit.
#[derive(Debug, Drop)]
pub struct Decision {
    pub reply: ReplyBytes,
    pub effect: Effect,
}

/// The state of a device: its capabilities, the opcodes in use, what its driver set, and the objects.
#[derive(Drop)]
pub struct Device {
    caps: DeviceCaps,
    // bit n is opcode n
    in_use: u64,
    driver: DriverCaps,
    objects: Objects,
}

impl Model for Device {
    ghost use Rattle.cap_table.specs.States.{DeviceState};
    ghost use Rattle.admin_dev.specs.DeviceParts.{state_of, AreParts};

    ghost Value = { DeviceState };

    ghost view = { λ d. state_of d.caps d.in_use d.driver d.objects };

    ghost invariant = { λ d. AreParts d.caps d.in_use d.driver d.objects };
}

impl Device {
    /// A device at its start, with no objects. All the memory that it will need is taken here.
    #[tactic(auto, using(cap_table::proofs::ValidSteps::start_is_valid))]
    pub fn new(alloc: Global, caps: DeviceCaps, start: Start) -> Result<Device, AllocError>
        ensures state { IfOk result (λ device. device ≡ start_state caps start) }
        ensures valid { IfOk result IsValid }
    {
        let objects = Objects::new(alloc, caps.limits())?;
        let driver = match start {
            Start::Ready => DriverCaps::same_as(&caps),
            Start::Reset => DriverCaps::unset(),
        };
        Ok(Device {
            caps,
            in_use: start.opcodes(),
            driver,
            objects,
        })
    }

    /// The reply to a command in this much room, in bytes, and the effect that is to be committed. The reply has no
    /// bytes where the room is below 8.
    #[tactic(auto, unfolding(cap_table::specs::Answers::verdict_of))]
    pub fn decide(&self, bytes: &[u8], room: u64) -> Decision
        ensures reply { result.reply.items ≡ reply_of self.now bytes.now room }
        ensures effect { result.effect ≡ effect_of self.now bytes.now room }
        ensures is_effect { IsEffect self.now result.effect }
        ensures never_no_memory { status_of result.reply.items ≢ no_memory.status }
        ensures only_obeyed { OnlyObeyedChanges result.reply.items result.effect }
    {
        if room < 8 {
            return Decision {
                reply: ReplyBytes::new(),
                effect: Effect::Nothing,
            };
        }
        let answer = self.answer(bytes);
        Decision {
            reply: put_reply(&answer.reply, room),
            effect: answer.effect,
        }
    }

    /// Makes the effect of a command that was decided in this state.
    pub fn commit(&mut self, effect: Effect)
        requires { IsEffect self.old effect }
        ensures state { self.new ≡ with_effect self.old effect }
        ensures valid { IsValid self.new }
    {
        match effect {
            Effect::Nothing => {}
            Effect::Use(opcodes) => self.in_use = opcodes,
            Effect::Caps(driver) => self.driver = driver,
            Effect::Change(change) => self.objects.apply(change),
        }
    }

    /// The answer to a command, whatever room there is for it.
    fn answer(&self, bytes: &[u8]) -> Answer
        ensures { result ≡ answer_of self.now bytes.now }
    {
        let read = read_command(bytes);
        if self.is_unused(&read, opcode_of(bytes)) {
            return Answer::refused(Verdict::INVALID_OPCODE);
        }
        match read {
            Ok(command) => self.command_answer(&command),
            Err(fault) => Answer::refused(Verdict::of_fault(fault)),
        }
    }

    /// Whether there is a whole header, and its opcode isn't in use.
    fn is_unused(&self, read: &Result<Command, WireErr>, opcode: Option<u16>) -> bool
        ensures { result ≡ (not (is_header_cut read.now) && is_opcode_unused self.now.in_use opcode) }
    {
        match (read, opcode) {
            (Err(WireErr::ShortHeader), _) | (_, None) => false,
            (_, Some(opcode)) => !is_opcode_in(self.in_use, opcode),
        }
    }

    /// The answer to a command that is laid out and whose opcode is in use.
    fn command_answer(&self, command: &Command) -> Answer
        ensures { result ≡ answer_to self.now command.now }
    {
        match command {
            Command::ListQuery => told(&opcode_bytes()),
            Command::ListUse(bitmap) => self.use_answer(*bitmap),
            Command::CapIds => Answer::obeyed(list_bytes(), Effect::Nothing),
            Command::CapGet(id) => self.get_answer(*id),
            Command::CapSet(wanted) => self.set_answer(wanted),
            Command::Query(head) => self.query_answer(head),
            Command::Create(_, _) | Command::Modify(_, _) | Command::Destroy(_) => {
                self.change_answer(command)
            }
        }
    }

    /// The answer to a list use.
    fn use_answer(&self, bitmap: u64) -> Answer
        ensures { result ≡ answer_to self.now (commands.ListUse bitmap) }
    {
        if has_other_opcode(bitmap) {
            return Answer::refused(Verdict::INVALID_FIELD);
        }
        Answer::obeyed(ArrayVec::new(), Effect::Use(opcodes_used(bitmap)))
    }

    /// The answer to a get of the device's capability with this id.
    #[tactic(auto, unfolding(cap_table::specs::CapResults::cap_result))]
    fn get_answer(&self, id: u16) -> Answer
        ensures { result ≡ answer_to self.now (commands.CapGet id) }
    {
        match cap_result(&self.caps, id) {
            Some(told) => Answer::obeyed(told, Effect::Nothing),
            None => Answer::refused(Verdict::INVALID_FIELD),
        }
    }

    /// The answer to a set of a capability.
    fn set_answer(&self, wanted: &CapData) -> Answer
        ensures { result ≡ answer_to self.now (commands.CapSet wanted.now) }
    {
        if is_unknown(wanted) {
            return Answer::refused(Verdict::INVALID_FIELD);
        }
        if !self.objects.is_empty() {
            return Answer::refused(Verdict::BUSY);
        }
        match may_set(&self.caps, wanted) {
            Ok(()) => {
                let mut driver = self.driver.copy();
                driver.set(wanted);
                Answer::obeyed(ArrayVec::new(), Effect::Caps(driver))
            }
            Err(_) => Answer::refused(Verdict::INVALID_FIELD),
        }
    }

    /// The answer to a query of an object.
    fn query_answer(&self, head: &ObjHead) -> Answer
        ensures { result ≡ answer_to self.now (commands.Query head.now) }
    {
        match self.objects.look(head) {
            Ok(told) => Answer::obeyed(told, Effect::Nothing),
            Err(verdict) => Answer::refused(verdict),
        }
    }

    /// The answer to a command that is to change the objects.
    fn change_answer(&self, command: &Command) -> Answer
        requires { ChangesObjects command.now }
        ensures { result ≡ answer_to self.now command.now }
    {
        match self.objects.check(command, &self.caps, &self.driver) {
            Ok(change) => Answer::obeyed(ArrayVec::new(), Effect::Change(change)),
            Err(verdict) => Answer::refused(verdict),
        }
    }
}

/// The answer that tells these bytes.
fn told(bytes: &[u8; 8]) -> Answer
    ensures { result ≡ obeyed bytes.now effects.Nothing }
{
    let mut told = ArrayVec::new();
    told.try_extend_from_slice(bytes).unwrap();
    Answer::obeyed(told, Effect::Nothing)
}

/// Whether the id is that of no capability.
fn is_unknown(wanted: &CapData) -> bool
    ensures { result ≡ is_id_unknown wanted.now }
{
    matches!(wanted, CapData::Other(_))
}

/// The reply to a command whose change found no memory, cut to the room: status 12 and qualifier 6. No decision gives
/// it.
pub fn no_memory(room: u64) -> ReplyBytes
    ensures { result.items ≡ reply_bytes (bare_reply no_memory.status no_memory.qualifier) room }
{
    put_reply(&Answer::refused(Verdict::NO_MEMORY).reply, room)
}
