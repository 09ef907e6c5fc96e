//! What happens to each client, as the lines are made.

use crate::canvas::Written;
use crate::front::{Leg, Way};
use crate::reason::{Reason, Trial};
use crate::scene::{Band, Branch, Ending, Event, Moment, Obstacle, Row, Wait};
use ll_journal::Station;
use ll_laws::Step;
use ll_seq::Reply;
use ll_steps::{Report, Unmet, World};
use ll_wire::ScheduleLine;
use std::alloc::Global;

/// What a line asks for, and what was so before it was made.
#[derive(Clone, Copy)]
pub struct Asked {
    pub client: u64,
    trial: Trial,
    // Where the client's walk was.
    from: Station,
    // Whether the answer may move directories.
    moves: bool,
    // Why the step, or the walk of the call, could not begin. None if that isn't asked.
    unmet: Option<Unmet>,
}

/// A line that was made: the world after it, what it asked for, what came of it, and the words of its call.
#[derive(Clone, Copy)]
pub struct Made<'a> {
    pub world: &'a World,
    pub asked: Asked,
    pub report: Report,
    pub words: &'a str,
}

/// What is kept of a client: the words of the call whose walk is under way, if reasons are wanted, and the client that
/// moved a directory on the walk's way since its last start.
#[derive(Drop)]
struct Seat {
    call: String,
    mover: Option<u64>,
}

/// All clients, what happens to them in the lines that are drawn, and why steps weren't enabled, one line each.
#[derive(Drop)]
pub struct Stage {
    alloc: Global,
    seats: Vec<Seat>,
    pub bands: Vec<Band>,
    pub reasons: String,
    pub gives_reasons: bool,
    /// The line under way, from 0, and whether it is drawn.
    pub line: usize,
    pub is_drawn: bool,
}

/// Returns the row of a client. Clients are numbered from 1.
pub fn row_of(client: u64) -> usize {
    client.saturating_sub(1) as usize
}

// The client that makes the step. For a connect, the client that would be next.
fn client_of(step: &Step, world: &World) -> u64 {
    match step {
        Step::Join => world.clients().saturating_add(1),
        Step::Begin(client, _) | Step::FdCommit(client, _) => *client,
        Step::ClientStep(client, _) => *client,
        Step::Descend(client) | Step::Fork(client) => *client,
        Step::Commit(client) | Step::Restart(client) => *client,
    }
}

/// Returns how a call ends, if the report has its reply.
pub fn ending_in(world: &World, report: Report) -> Option<Ending> {
    let reply = match report {
        Report::Replied(number) => world.history().entries().get(number as usize),
        Report::Refused(_) => None,
        _ => return None,
    };
    match reply {
        Some(entry) if !matches!(entry.reply, Reply::Refused(_) | Reply::Denied(_)) => {
            Some(Ending::Done)
        }
        _ => Some(Ending::Refused),
    }
}

/// Returns the branch on which a walk at this station goes on.
pub fn branch_at(at: Station) -> Branch {
    match at {
        Station::First => Branch::First,
        Station::Second => Branch::Second,
        _ => Branch::Trunk,
    }
}

impl Stage {
    pub fn new(alloc: Global, gives_reasons: bool) -> Stage {
        Stage {
            alloc,
            seats: Vec::new(alloc),
            bands: Vec::new(alloc),
            reasons: String::new(alloc),
            gives_reasons,
            line: 0,
            is_drawn: false,
        }
    }

    /// Returns what the line asks for. Looks for what isn't met only if that will be told.
    pub fn ask(&self, world: &World, asked: &ScheduleLine) -> Asked {
        let is_told = self.is_drawn || self.gives_reasons;
        match asked {
            ScheduleLine::Step(step) => {
                let client = client_of(step, world);
                Asked {
                    client,
                    trial: Trial::of(step),
                    from: world.station(client),
                    moves: world.gate() == Some(client),
                    unmet: if is_told { world.unmet(step) } else { None },
                }
            }
            ScheduleLine::Do(client, call) => {
                Asked {
                    client: *client,
                    trial: Trial::Call,
                    from: world.station(*client),
                    moves: call.takes_gate(),
                    unmet: if is_told {
                        world.unmet_begin(*client, call)
                    } else {
                        None
                    },
                }
            }
        }
    }

    // Adds to the client's row, if the line is drawn.
    fn note(&mut self, client: u64, event: Event) -> Written {
        let line = self.line;
        if self.is_drawn
            && let Some(band) = self.bands.last_mut()
            && let Some(row) = band.rows.get_mut(row_of(client))
        {
            row.moments.push(Moment { line, event })?;
        }
        Ok(())
    }

    // Notes that the client's walk begins, or that it is at the root again; and that it holds the gate.
    fn note_gate(&mut self, world: &World, client: u64) -> Written {
        if world.gate() == Some(client) {
            self.note(client, Event::HasGate)?;
        }
        Ok(())
    }

    // Notes the mark of this leg.
    fn note_mark(&mut self, client: u64, leg: Leg<'_>) -> Written {
        let spot = leg.spot(self.alloc)?;
        self.note(client, Event::Stands(leg.branch, spot))
    }

    // Notes all that is left of the client's walk, if one is under way.
    fn note_walk(&mut self, world: &World, client: u64) -> Written {
        let Some(way) = Way::of(world, client) else {
            return Ok(());
        };
        self.note(client, Event::Begun)?;
        self.note_gate(world, client)?;
        for leg in way.legs().into_iter().flatten() {
            self.note_mark(client, leg)?;
            if leg.branch == Branch::Trunk && way.is_split() {
                self.note(client, Event::Forked)?;
            }
        }
        match self.mover_of(client) {
            Some(mover) => self.note(client, Event::Overtaken(row_of(mover))),
            None => Ok(()),
        }
    }

    /// Begins the next band, with what is left of what happened before.
    pub fn begin_band(&mut self, world: &World) -> Written {
        let first = self.line;
        let rows = Vec::new(self.alloc);
        self.bands.push(Band { first, rows })?;
        self.line = first.saturating_sub(1);
        for client in 1..=self.seats.len() as u64 {
            self.add_row()?;
            self.note_walk(world, client)?;
        }
        self.line = first;
        Ok(())
    }

    // Adds the row of a client, if the line is drawn.
    fn add_row(&mut self) -> Written {
        let (line, event) = (self.line, Event::Came);
        if self.is_drawn
            && let Some(band) = self.bands.last_mut()
        {
            let mut moments = Vec::new(self.alloc);
            moments.push(Moment { line, event })?;
            band.rows.push(Row { moments })?;
        }
        Ok(())
    }

    // Adds a seat, and a row, for each new client.
    fn seat_all(&mut self, world: &World) -> Written {
        for _ in self.seats.len() as u64..world.clients() {
            self.seats.push(Seat {
                call: String::new(self.alloc),
                mover: None,
            })?;
            self.add_row()?;
        }
        Ok(())
    }

    // Who moved a directory on the way of the client's walk.
    fn mover_of(&self, client: u64) -> Option<u64> {
        self.seats.get(row_of(client))?.mover
    }

    // Whom the answer to this client made stale.
    fn see_walks(&mut self, world: &World, mover: u64) -> Written {
        for client in 1..=self.seats.len() as u64 {
            if let Some(seat) = self.seats.get_mut(row_of(client))
                && seat.mover.is_none()
                && world.station(client) == Station::Stale
            {
                seat.mover = Some(mover);
                self.note(client, Event::Overtaken(row_of(mover)))?;
            }
        }
        Ok(())
    }

    // What another client has in a step's way.
    fn obstacle_in(world: &World, unmet: Unmet) -> Option<Obstacle> {
        let (other, bar) = match unmet {
            Unmet::Gate(holder) => (holder, None),
            Unmet::Marked(inode, other) => {
                let mut legs = Way::of(world, other)?.legs().into_iter().flatten();
                (other, Some(legs.find(|leg| leg.inode == inode)?.bar))
            }
            _ => return None,
        };
        Some(Obstacle {
            row: row_of(other),
            bar,
        })
    }

    // Tells why the client's step isn't enabled.
    fn wait(&mut self, world: &World, client: u64, trial: Trial, unmet: Unmet) -> Written {
        let cause = Reason::new(world, client, trial, unmet, self.mover_of(client));
        if self.gives_reasons {
            let number = self.line.saturating_add(1);
            writeln!(self.reasons, "line {number}: {cause}")?;
        }
        if !self.is_drawn {
            return Ok(());
        }
        let reason = format!(in self.alloc; "{cause}")?;
        let obstacle = Stage::obstacle_in(world, unmet);
        self.note(client, Event::NotNow(Wait { reason, obstacle }))
    }

    // Tells what an enabled step did.
    fn tell(&mut self, made: Made<'_>) -> Written {
        let (world, client, from) = (made.world, made.asked.client, made.asked.from);
        if let Some(ending) = ending_in(world, made.report) {
            let event = match from {
                Station::Idle => Event::Made(ending),
                _ => Event::Answered(ending),
            };
            return self.note(client, event);
        }
        match (made.report, Way::of(world, client)) {
            (Report::Begun, _) => {
                self.note(client, Event::Begun)?;
                self.note_gate(world, client)
            }
            (Report::Stands(_), Some(way)) => {
                if from == Station::Above {
                    self.note_gate(world, client)?;
                }
                match way.legs().into_iter().flatten().last() {
                    Some(leg) => self.note_mark(client, leg),
                    None => Ok(()),
                }
            }
            (Report::Forked, _) => self.note(client, Event::Forked),
            (Report::Restarted, _) => self.note(client, Event::Restarted),
            _ => Ok(()),
        }
    }

    // Tells that a call's walk has begun and now waits, and for what.
    fn stop(&mut self, world: &World, client: u64) -> Written {
        self.note_walk(world, client)?;
        let step = match world.station(client) {
            Station::End => Step::Commit(client),
            _ => Step::Descend(client),
        };
        match world.unmet(&step) {
            Some(unmet) => self.wait(world, client, Trial::of(&step), unmet),
            None => Ok(()),
        }
    }

    // Tells what came of a line.
    fn tell_line(&mut self, made: Made<'_>) -> Written {
        let (world, client) = (made.world, made.asked.client);
        match (made.asked.trial, made.asked.unmet) {
            _ if made.report.was_enabled() => self.tell(made),
            (Trial::Call, None) => self.stop(world, client),
            (Trial::Call, Some(unmet)) if unmet != Unmet::UnderWay => {
                self.wait(world, client, Trial::Begin, unmet)
            }
            (trial, Some(unmet)) => self.wait(world, client, trial, unmet),
            (_, None) => Ok(()),
        }
    }

    // Keeps the words of a call whose walk has begun, if reasons are wanted. Forgets who moved a directory on the way
    // of the walk before it, or of its last start.
    fn keep(&mut self, made: Made<'_>) -> Written {
        let begins = match (made.asked.trial, made.asked.unmet) {
            (Trial::Call, None) => {
                made.asked.from == Station::Idle && !made.report.was_enabled()
            }
            _ => made.report == Report::Begun,
        };
        let Some(seat) = self.seats.get_mut(row_of(made.asked.client)) else {
            return Ok(());
        };
        if begins || matches!(made.report, Report::Restarted | Report::Replied(_)) {
            seat.mover = None;
        }
        if begins && self.gives_reasons {
            seat.call.clear();
            seat.call.push_str(made.words)?;
        }
        Ok(())
    }

    /// Takes in a line that was made.
    pub fn take(&mut self, made: Made<'_>) -> Written {
        self.keep(made)?;
        if self.is_drawn || self.gives_reasons {
            self.tell_line(made)?;
        }
        if made.asked.moves && matches!(made.report, Report::Replied(_)) {
            self.see_walks(made.world, made.asked.client)?;
        }
        self.seat_all(made.world)
    }

    // Tells where the client's walk is, if one is under way.
    fn tell_walk_left(&mut self, world: &World, client: u64) -> Written {
        let (Some(way), Some(seat)) = (Way::of(world, client), self.seats.get(row_of(client)))
        else {
            return Ok(());
        };
        let call = seat.call.as_str();
        write!(
            self.reasons,
            "at the end client {client}'s `{call}` is under way, "
        )?;
        match world.station(client) {
            Station::Above => self.reasons.push_str("above the root")?,
            Station::Stale => write!(self.reasons, "in {way}, stale")?,
            _ => write!(self.reasons, "in {way}")?,
        }
        if world.gate() == Some(client) {
            self.reasons.push_str(", and holds the move gate")?;
        }
        self.reasons.push_str("\n")?;
        Ok(())
    }

    /// Tells which walks are still under way, one line each.
    pub fn tell_walks_left(&mut self, world: &World) -> Written {
        for client in 1..=self.seats.len() as u64 {
            self.tell_walk_left(world, client)?;
        }
        Ok(())
    }
}
