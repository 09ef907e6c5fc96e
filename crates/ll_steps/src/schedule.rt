//! A schedule under way.

ghost use Rattle.std.specs.Prelude.{◌≡◌, ◌≢◌, ◌<◌, ◌^◌, ℕ, suc, List, Err, IfErr, IfOk, OnErr, OnOk};
ghost use Rattle.std.specs.Io.KnownBytes.{Appends};
ghost use Rattle.ll_wire.specs.LineCuts.{Holds};
ghost use Rattle.ll_wire.specs.Devices.{IsWhole};
ghost use Rattle.ll_wire.specs.Reached.{Blames};
ghost use Rattle.ll_wire.specs.declared.fault.SessionFault.{SessionFault};
ghost use Rattle.ll_wire.specs.Grammar.{IsReply};
ghost use Rattle.ll_wire.specs.WriterGains.{AppendsFront};
ghost use Rattle.ll_steps.specs.Pace.{end_text, first_pace, noted};
ghost use Rattle.ll_steps.specs.Tells.{Answers, Does};
ghost use Rattle.ll_steps.specs.Told.{last_line, opened};

use crate::halt::{Halt, Pace};
use crate::setup::WorldSetup;
use crate::{Report, Witness, World};
use ll_audit::Verdict;
use ll_rights::Errno;
use ll_wire::{Ends, Line, ScheduleLine, SessionFault, read_schedule_line, write_line};
use std::alloc::{AllocError, Global};

// Does what the line asks for. Returns its report.
fn done(world: &mut World, line: ScheduleLine) -> Report
    ensures { Does world.old line result world.new }
{
    match line {
        ScheduleLine::Step(step) => world.step(step),
        ScheduleLine::Do(client, call) => world.make(client, call),
    }
}

/// A tree with its walks, driven by lines, how far they are, and who sees them made.
#[derive(Drop)]
pub struct Schedule<W> {
    pub alloc: Global,
    pub world: World,
    pub pace: Pace,
    pub witness: W,
}

/// A schedule that was run: the line that ended it early, which only a strict one has, and who saw it.
#[derive(Drop)]
pub struct ScheduleRun<W> {
    pub halt: Option<Halt>,
    pub witness: W,
}

impl<W: Witness> Schedule<W> {
    ghost use Rattle.ll_seq.specs.declared.reply.Reply.{Reply};

    /// Opens the tree, before the first line. Errors: memory ran out.
    pub fn open(
        alloc: Global,
        setup: WorldSetup,
        is_strict: bool,
        witness: W,
    ) -> Result<Schedule<W>, AllocError>
        ensures world { IfOk result (λ schedule. schedule.world ≡ opened setup) }
        ensures pace { IfOk result (λ schedule. schedule.pace ≡ first_pace is_strict) }
        ensures witness { IfOk result (λ schedule. schedule.witness ≡ witness) }
    {
        let world = World::new(alloc, setup.rules, setup.nodes, setup.history)?;
        Ok(Schedule {
            alloc,
            world,
            pace: Pace::new(is_strict),
            witness,
        })
    }

    // Does what the line asks for, as `outcome` does. The witness sees it before.
    fn made(&mut self, line: &Line) -> Result<Report, Errno>
        ensures answers { (piece : List ℕ) → Holds line.now piece
            → Answers self.old.world piece result self.new.world }
        ensures spelled { IfErr result (λ errno. IsReply (Reply.Refused errno)) }
        ensures pace { self.new.pace ≡ self.old.pace }
        ensures seen { W.seen self.new.witness ≡ W.seen self.old.witness }
        ensures goes { W.goes self.old.witness self.new.witness }
    {
        let Some(bytes) = line.bytes() else {
            return Err(Errno::BadLine);
        };
        let line = read_schedule_line(self.alloc, bytes, self.world.clients())?;
        self.witness.expect(&self.world, &line);
        Ok(done(&mut self.world, line))
    }

    /// Does what the line asks for, counts it, and lets the witness see it. Returns its report. Errors: why the line
    /// wasn't read.
    pub fn outcome(&mut self, line: &Line) -> Result<Report, Errno>
        requires seen { W.seen self.old.witness < 2 ^ 63 }
        requires lines { self.old.pace.lines < 2 ^ 63 }
        ensures answers { (piece : List ℕ) → Holds line.now piece
            → Answers self.old.world piece result self.new.world }
        ensures spelled { IfErr result (λ errno. IsReply (Reply.Refused errno)) }
        ensures noted { self.new.pace ≡ noted self.old.pace result }
        ensures seen { W.seen self.new.witness ≡ suc (W.seen self.old.witness) }
        ensures goes { W.goes self.old.witness self.new.witness }
    {
        let answer = self.made(line);
        self.pace.note(answer);
        self.witness.see(&self.world, line, answer);
        answer
    }

    // Writes the number of entries in the history. Errors: as `finish`.
    fn write_last<E: Ends>(&self, ends: &mut E) -> Result<(), SessionFault>
        requires { IsWhole (E.devices ends.old) }
        ensures ok { OnOk result (Appends (E.devices ends.old).contents (E.devices ends.new).contents
            (last_line self.now.world)) }
        ensures whole { OnOk result (IsWhole (E.devices ends.new)) }
        ensures err { OnErr result (AppendsFront (E.devices ends.old).contents (E.devices ends.new).contents
            (last_line self.now.world)) }
        ensures fault { IfErr result (λ fault. Blames fault (E.devices ends.old) (E.devices ends.new)) }
        ensures few { result ≢ Err SessionFault.TooLong }
        ensures remaining { (E.devices ends.new).remaining ≡ (E.devices ends.old).remaining }
        ensures same { E.names ends.new ≡ E.names ends.old }
    {
        let count = self.world.history().entries().len();
        let Ok(text) = Verdict::Legal(count).text(self.alloc) else {
            return Err(SessionFault::NoMemory);
        };
        write_line(ends, text.as_str())
    }

    /// Writes the last line, if no line has ended the schedule: the number of entries in the history. Errors: the
    /// output failed, or memory ran out; a prefix of the line may be written.
    pub fn finish<E: Ends>(&self, ends: &mut E) -> Result<(), SessionFault>
        requires { IsWhole (E.devices ends.old) }
        ensures ok { OnOk result (Appends (E.devices ends.old).contents (E.devices ends.new).contents
            (end_text self.now.world self.now.pace.halt)) }
        ensures whole { OnOk result (IsWhole (E.devices ends.new)) }
        ensures err { OnErr result (AppendsFront (E.devices ends.old).contents (E.devices ends.new).contents
            (end_text self.now.world self.now.pace.halt)) }
        ensures fault { IfErr result (λ fault. Blames fault (E.devices ends.old) (E.devices ends.new)) }
        ensures few { result ≢ Err SessionFault.TooLong }
        ensures remaining { (E.devices ends.new).remaining ≡ (E.devices ends.old).remaining }
        ensures same { E.names ends.new ≡ E.names ends.old }
    {
        match self.pace.halt {
            Some(_) => Ok(()),
            None => self.write_last(ends),
        }
    }

    /// Ends the schedule. Its witness has seen the tree after the last line.
    pub fn into_run(self) -> ScheduleRun<W>
        ensures halt { result.halt ≡ self.pace.halt }
        ensures seen { W.seen result.witness ≡ W.seen self.witness }
        ensures goes { W.goes self.witness result.witness }
    {
        let Schedule {
            world,
            pace,
            mut witness,
            ..
        } = self;
        witness.leave(&world);
        ScheduleRun {
            halt: pace.halt,
            witness,
        }
    }
}
