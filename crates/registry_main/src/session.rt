//! The session of a script: the register that its lines build, line by line.
ghost use Rattle.std.specs.Prelude.{◌≡◌, ◌<◌, ◌≤◌, [], max, length, Ok, IfOk, IfSome};
ghost use Rattle.arrayvec.specs.ArrayVec.{array_vec_len};
ghost use Rattle.reg_entry.specs.declared.entry.Reply.TheVariants.{Refused};
ghost use Rattle.reg_entry.specs.declared.refusal.Refusal.TheVariants.{Malformed};
ghost use Rattle.reg_entry.specs.Days.{last_date};
ghost use Rattle.reg_entry.specs.Holders.{handle_of};
ghost use Rattle.reg_entry.specs.Register.{piece_of};
ghost use Rattle.desk_text.specs.ReplyText.{ReplyHasDate, reply_text};
ghost use Rattle.registry_main.specs.Answer.{answer_text};
ghost use Rattle.registry_main.specs.Session.{new_session, decided, after_reply, shown_text, step_of, answered};
ghost use Rattle.delegated_ext.specs.StatisticsText.{statistics_text};
ghost use Rattle.reverse_zone.specs.Apex.{IsApex};
ghost use Rattle.reverse_zone.specs.Zone.{in_pool, zone_text};

use crate::answer::Answer;
use crate::answer_line::AnswerLine;
use board::{Board, Body};
use delegated_ext::write_stats;
use desk_lang::{Line, read_line};
use desk_text::laws::replies_have_dates;
use desk_text::{write_none, write_piece, write_reply};
use num_range::Number;
use piece_book::PieceBook;
use policy_table::Policy;
use reg_entry::{Handle, Name, Piece, Refusal, Reply, Request, Rooms, clamped_day};
use request_core::{decide, decide_on_day, undated_refusal};
use reverse_zone::{Apex, in_pool, write_zone};
use std::alloc::{AllocError, Global};
use std::marker::Model;

/// How much the register of a script or of a load may keep.
pub(crate) const ROOMS: Rooms = Rooms {
    pieces: 262_144,
    holders: 65_536,
    subs: 262_144,
    reverse: 65_536,
    entries: 1_000_000,
    window: 65_536,
};

/// The register of a script so far, the policy by which its requests are decided, and who asks on which day. Making one
/// takes memory, and nothing after that does.
#[derive(Drop)]
pub struct Session {
    board: Board,
    policy: Policy,
    day: u32,
    who: Name,
}

impl Model for Session {
    ghost use Rattle.registry_main.specs.Session.{PlainSession};

    ghost Value = { PlainSession };

    ghost view = { λ s. record { register = s.board.register; policy = s.policy; day = s.day; who = s.who } };
}

/// Tells why a line is refused. It isn't inlined, since a function makes room for all its values when it is entered, and a
/// reply has that of an entry.
#[inline(never)]
fn tell_refused(refusal: Refusal, line: &mut AnswerLine)
    requires empty { line.old.items ≡ [] }
    requires date { ReplyHasDate (Refused refusal) }
    ensures text { line.new.items ≡ reply_text (Refused refusal) }
    ensures short { array_vec_len line.new ≤ 140 }
{
    write_reply(&Reply::Refused(refusal), line);
}

impl Session {
    /// The empty register under a policy, on a clock's day. The hostmaster `local` asks.
    pub fn new(alloc: Global, policy: Policy, day: u32) -> Result<Session, AllocError>
        ensures { IfOk result (λ session. session ≡ new_session policy day) }
    {
        Ok(Session {
            board: Board::with_room(alloc, ROOMS)?,
            policy,
            day: clamped_day(day),
            who: Name::read(b"local").unwrap(),
        })
    }

    /// The register's pieces.
    pub fn pieces(&self) -> &PieceBook
        ensures { result.now.partition ≡ self.now.register.pool }
    {
        self.board.pieces()
    }

    /// The day by which a quarantine is over: no entry is older than the one before it.
    pub fn due_day(&self) -> u32
        ensures { result ≡ max self.now.day self.now.register.last_day }
    {
        self.day.max(self.board.last_day())
    }

    /// Decides a request, takes in the entry that it becomes, and tells what became of it.
    fn decide(&mut self, request: &Request, line: &mut AnswerLine)
        requires { line.old.items ≡ [] }
        ensures session { self.new ≡ after_reply self.old (decided self.old request.now) }
        ensures text { line.new.items ≡ reply_text (decided self.old request.now) }
        ensures short { array_vec_len line.new ≤ 140 }
    {
        self.board.is_whole();
        // A law, for the days that are written.
        replies_have_dates();
        let (board, policy, who) = (&self.board, &self.policy, &self.who);
        let subject = board.subject(request);
        if let Some(refusal) = undated_refusal(board, policy, who, request, &subject) {
            tell_refused(refusal, line);
            return;
        }
        let reply = decide_on_day(board, policy, self.day, who, request, &subject);
        write_reply(&reply, line);
        if let Reply::Accepted(entry) = &reply {
            self.board.apply(entry);
        }
    }

    /// The piece that holds the number.
    fn find_piece(&self, n: &Number) -> Option<Piece>
        ensures piece { result ≡ piece_of self.now.register.pool n.now }
        ensures dates { IfSome result (λ p. (p.card.day ≤ last_date) × (p.card.until ≤ last_date)) }
        ensures holder { IfSome result (λ p. IfSome p.card.holder (λ number. number < length self.now.register.holders)) }
    {
        self.board.is_whole();
        self.board.pieces().piece_at(*n)
    }

    /// The handle of a card's holder, where it has one.
    fn handle_of(&self, holder: Option<u32>) -> Option<Handle>
        requires { IfSome holder (λ number. number < length self.now.register.holders) }
        ensures { result ≡ handle_of self.now.register.holders holder }
    {
        let (holder, _) = self.board.holders().holder(holder?);
        Some(holder.handle)
    }

    /// Tells what is known of a number.
    fn show(&self, n: &Number, line: &mut AnswerLine)
        requires { line.old.items ≡ [] }
        ensures text { line.new.items ≡ shown_text self.now.register (piece_of self.now.register.pool n.now) }
        ensures short { array_vec_len line.new ≤ 140 }
    {
        let Some(piece) = self.find_piece(n) else {
            write_none(line);
            return;
        };
        write_piece(&piece, &self.handle_of(piece.card.holder), line);
    }

    /// Does what a line asks for.
    fn follow(&mut self, asked: &Line, line: &mut AnswerLine) -> Answer
        requires { line.old.items ≡ [] }
        ensures session { self.new ≡ (step_of self.old (Ok asked.now)).session }
        ensures text { answer_text self.new line.new.items result ≡ (step_of self.old (Ok asked.now)).text }
        ensures short { array_vec_len line.new ≤ 140 }
    {
        match asked {
            Line::Request(request) => {
                self.decide(request, line);
                Answer::Told
            }
            Line::Show(n) => {
                self.show(n, line);
                Answer::Told
            }
            Line::Due => Answer::Due,
            Line::Day(day) => {
                self.day = *day;
                Answer::Silent
            }
            Line::By(name) => {
                self.who = *name;
                Answer::Silent
            }
            Line::Nothing => Answer::Silent,
        }
    }

    /// Answers a line, which is handed in without its line end. What it tells is put into the other line.
    pub fn answer(&mut self, text: &[u8], line: &mut AnswerLine) -> Answer
        requires { line.old.items ≡ [] }
        ensures session { self.new ≡ (answered self.old text.now).session }
        ensures text { answer_text self.new line.new.items result ≡ (answered self.old text.now).text }
        ensures short { array_vec_len line.new ≤ 140 }
    {
        match &read_line(text) {
            Ok(asked) => self.follow(asked, line),
            Err(fault) => {
                let place = fault.place;
                tell_refused(Refusal::Malformed { place }, line);
                Answer::Told
            }
        }
    }

    /// Does what a line asks for, which is handed in without its line end, and tells nothing of it.
    pub fn take(&mut self, text: &[u8])
        ensures { self.new ≡ (answered self.old text.now).session }
    {
        match &read_line(text) {
            Ok(Line::Request(request)) => {
                let reply = decide(&self.board, &self.policy, self.day, &self.who, request);
                if let Reply::Accepted(accepted) = &reply {
                    self.board.apply(accepted);
                }
            }
            Ok(Line::Day(day)) => self.day = *day,
            Ok(Line::By(name)) => self.who = *name,
            Ok(Line::Show(_) | Line::Due | Line::Nothing) | Err(_) => {}
        }
    }

    /// The statistics file of the register.
    pub fn statistics(&self, alloc: Global) -> Result<Body, AllocError>
        ensures { IfOk result (λ body. body ≡ statistics_text self.now.register self.now.policy.registry) }
    {
        write_stats(alloc, &self.board, self.policy.registry())
    }

    /// Whether the register has numbers whose names lie in the zone.
    pub fn has_zone(&self, apex: Apex) -> bool
        requires { IsApex apex }
        ensures { result ≡ in_pool self.now.register apex }
    {
        in_pool(&self.board, apex)
    }

    /// The reverse zone.
    pub fn zone(&self, alloc: Global, apex: Apex) -> Result<Body, AllocError>
        requires { IsApex apex }
        ensures { IfOk result (λ body. body ≡ zone_text self.now.register self.now.policy.zone apex) }
    {
        write_zone(alloc, &self.board, self.policy.zone(), apex)
    }
}
