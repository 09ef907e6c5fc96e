//! Sessions, strict or not, that count what they answer.

ghost use Rattle.std.specs.Prelude.{◌≡◌, ◌≤◌, ◌+◌, ◌^◌, ℕ, List, Some, None, Err, IfErr, OnErr, OnOk, false, length};
ghost use Rattle.ll_wire.specs.Devices.{IsWhole};
ghost use Rattle.ll_wire.specs.Reached.{Blames, StartsAll};
ghost use Rattle.ll_wire.specs.Transcript.{most_reads};
ghost use Rattle.ll_wire.specs.declared.fault.SessionFault.{SessionFault};
ghost use Rattle.ll_session.specs.Beside.{AnswersBeside};
ghost use Rattle.ll_session.specs.Counts.{first_score};
ghost use Rattle.ll_session.specs.Strict.{Scores, ScoresTo};
ghost use Rattle.ll_session.specs.Talk.{Goes};

use crate::keeper::Keeps;
use crate::open_session::OpenSession;
use crate::score::Score;
use crate::{Gate, Party};
use ll_client::Shape;
use ll_wire::{Answers, Ends, Line, SessionFault, answer_lines, reply_line};
use std::alloc::AllocError;
use std::sync::Wait;

/// A session under way, and how far it is.
struct ScoredSession<'a, N: Shape, R: Wait, G: Gate<N>, K: Keeps> {
    session: OpenSession<'a, N, R, G, K>,
    score: Score,
}

impl<'a, N: Shape, R: Wait, G: Gate<N>, K: Keeps> Answers for ScoredSession<'a, N, R, G, K> {
    ghost use Rattle.std.specs.Prelude.{is_some};
    ghost use Rattle.ll_session.specs.KeptHistory.{AreKept};
    ghost use Rattle.ll_session.specs.Progress.{ScoreStandsOn, score_stands, score_stands_on};

    ghost tells = { λ a piece line b.
        Scores (AnswersBeside N.limit a.session.before) (a.session.party, a.score) piece line
        (b.session.party, b.score) × (b.session.before ≡ a.session.before) };

    ghost goes = { λ a b. ScoreStandsOn N.limit a.session.before a.session.party a.score
        b.session.before b.session.party b.score };

    // Each line adds at most two.
    ghost used = { λ scored. scored.score.tally.lines + scored.score.tally.denials };

    ghost over = { λ scored. is_some scored.score.end };

    // All entries that its clients know of are kept, unless nobody keeps them.
    ghost kept = { λ scored. AreKept scored.session.kept scored.session.party };

    fn answer(&mut self, line: &Line) -> Result<String, AllocError> {
        let (reply, is_end) = self.session.reply(line);
        let text = reply_line(self.session.alloc, &reply);
        self.score.note(reply, is_end);
        text
    }

    fn settle(&mut self) {
        self.session.keep();
    }

    fn is_over(&self) -> bool {
        self.score.end.is_some()
    }

    ghost goes_nowhere = { λ a. score_stands N.limit a.session.before a.session.party a.score };

    ghost goes_on = { λ a b c.
        score_stands_on N.limit a.session.before b.session.before c.session.before
        a.session.party b.session.party c.session.party a.score b.score c.score };
}

/// Answers each line that is read, while others call on the tree. A strict session ends at the first line whose reply
/// ends it: no later line is called, even if one read returned both. The party's clients at the beginning came before
/// the session, and no line names them; those that the session spawns are added at the end. Before each read, the
/// entries that its clients know of are kept, and then the replies to all lines read so far are written. After a fault,
/// the calls that the tree has answered stay made.
pub fn session<N: Shape, R: Wait, G: Gate<N>, K: Keeps, E: Ends>(
    session: OpenSession<'_, N, R, G, K>,
    is_strict: bool,
    ends: &mut E,
) -> (Party<N>, Score, Result<(), SessionFault>)
    requires whole { IsWhole (E.devices ends.old) }
    requires answered { (E.devices ends.old).owed ≡ 0 }
    requires reads { (E.devices ends.old).reads ≤ 2 ^ 62 }
    // Without a fault, everything was read, or as much as a reply has ended, and its transcript was written.
    ensures ok { OnOk result.2 (ScoresTo (AnswersBeside N.limit session.entry.before)
        (session.entry.party, first_score is_strict) (result.0, result.1) (E.devices ends.old) (E.devices ends.new)) }
    // After a fault, a prefix of the transcript of some first pieces was written, and their calls were made.
    ensures err { OnErr result.2 (StartsAll (Scores (AnswersBeside N.limit session.entry.before))
        (session.entry.party, first_score is_strict) (result.0, result.1) (E.devices ends.old) (E.devices ends.new)) }
    // Whatever the devices report: its clients have made calls, and looked at the history's length.
    ensures goes { Goes N.limit session.entry.party result.0 }
    ensures lax { is_strict ≡ false → result.1.end ≡ None }
    ensures fault { IfErr result.2 (λ fault. Blames fault (E.devices ends.old) (E.devices ends.new)) }
    // Each read returns at least one byte.
    ensures long { result.2 ≡ Err SessionFault.TooLong
        → (input : List ℕ) → (E.devices ends.old).remaining ≡ Some input → most_reads ≤ length input }
    ensures same { E.names ends.new ≡ E.names ends.old }
{
    let mut scored = ScoredSession {
        session,
        score: Score::new(is_strict),
    };
    let ended = answer_lines(scored.session.alloc, ends, &mut scored);
    let ScoredSession { session, score } = scored;
    let party = session.close();
    (party, score, ended)
}
