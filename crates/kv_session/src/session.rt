ghost use Rattle.std.specs.Prelude.{◌≡◌, ◌⊎◌, ◌↔◌, ℕ, false, [], ◌++◌, ◌≤◌, length, IfOk, OnOk, OnErr};
ghost use Rattle.kv_request.specs.Tables.{IsReply, IsRequest, is_for_session};
ghost use Rattle.kv_session.specs.Filling.{room_for};
ghost use Rattle.kv_session.specs.Session.{new_line, IsFull, Feeds, Gives, Advances};
ghost use Rattle.kv_session.specs.Making.{HandsOut};
ghost use Rattle.kv_request.specs.Sending.{sent_bytes, IsSendable};

use crate::answers::Made;
use crate::filling::{KEPT_LIMIT, fill, release};
use crate::finding::{Found, find_frame};
use kv_edge::NoMemory;
use kv_frame::Fault;
use kv_request::{Features, Reply, Request, reply_into};
use std::alloc::Global;
use std::marker::Model;

/// What a session gives out.
#[derive(Debug, Drop)]
pub enum Next {
    /// A request that is to be answered.
    Request(Request),
    /// A reply of the session's own, to be sent: to a frame that is no request, or asks nothing of a vbucket.
    Refused(Reply),
    /// This many bytes of a frame are missing.
    More(usize),
    /// No frame begins so: the place in the frame, and why. It is told again from then on.
    Bad(usize, Fault),
    /// The connection ended by a Quit. It is told again from then on.
    Quit,
    /// Memory was refused; nothing changed.
    NoMemory,
}

/// The bytes of a connection that weren't given out as requests yet, and what was granted.
#[derive(Drop)]
pub struct Session {
    alloc: Global,
    held: Vec<u8>,
    features: Features,
    quit: bool,
}

impl Model for Session {
    ghost use Rattle.kv_session.specs.Filling.{IsHeld};
    ghost use Rattle.kv_session.specs.Session.{Line, coded_line};

    ghost Value = { Line };

    ghost coded = { coded_line };

    ghost view = { λ s. record { held = s.held.items; features = s.features; quit = s.quit } };

    ghost invariant = { λ s. IsHeld s.held };
}

impl Session {
    /// A session to which nothing was fed. It takes no memory.
    pub fn new(alloc: Global) -> Session
        ensures { result ≡ new_line }
    {
        Session {
            alloc,
            held: Vec::new(alloc),
            features: Features {
                token: false,
                json: false,
                collections: false,
            },
            quit: false,
        }
    }

    /// Takes bytes from the front of a piece until it ends, or a whole frame is held, or no frame can begin so; answers
    /// how many. At `Err` nothing was taken.
    pub fn feed(&mut self, piece: &[u8]) -> Result<usize, NoMemory>
        ensures fed { IfOk result (λ n. Feeds self.old piece.now self.new n) }
        ensures none { IfOk result (λ n. (n ≡ 0) ↔ ((piece.now ≡ []) ⊎ IsFull self.old)) }
        ensures err { OnErr result (self.new ≡ self.old) }
    {
        if self.quit {
            return Ok(0);
        }
        fill(&mut self.held, piece)
    }

    /// Gives out what comes next, each frame once.
    pub fn next_request(&mut self) -> Next
        ensures gives { Gives self.old self.new result }
        ensures request { (made : _) → result ≡ Next.Request made → IsRequest made }
        ensures passed { (made : _) → result ≡ Next.Request made → is_for_session made.body ≡ false }
        ensures reply { (reply : _) → result ≡ Next.Refused reply → IsReply reply }
    {
        if self.quit {
            return Next::Quit;
        }
        match find_frame(self.alloc, &self.features, &self.held) {
            // What is held is this frame and no more.
            Ok(Found::Frame(made, _used)) => self.hand_out(made),
            Ok(Found::More(missing)) => Next::More(missing),
            Ok(Found::Bad(place, fault)) => Next::Bad(place, fault),
            Err(_refused) => Next::NoMemory,
        }
    }

    /// Takes bytes from the front of a piece as `feed` does, and gives out what comes next as `next_request` does;
    /// answers how many bytes were taken, and what is given out. Where nothing is held, a frame that is whole in the
    /// piece is read where it lies, and no byte of it is copied here.
    ///
    /// At `Err` nothing changed. At `More` all of the piece was taken.
    pub fn advance(&mut self, piece: &[u8]) -> Result<(usize, Next), NoMemory>
        ensures advances { IfOk result (λ x. Advances self.old piece.now self.new x.0 x.1) }
        ensures request { (n : ℕ) (made : _) → result ≡ Ok (n, Next.Request made) → IsRequest made }
        ensures passed { (n : ℕ) (made : _) → result ≡ Ok (n, Next.Request made) → is_for_session made.body ≡ false }
        ensures reply { (n : ℕ) (reply : _) → result ≡ Ok (n, Next.Refused reply) → IsReply reply }
        ensures all { (n missing : ℕ) → result ≡ Ok (n, Next.More missing) → n ≡ length piece.now }
        ensures err { OnErr result (self.new ≡ self.old) }
    {
        if self.held.is_empty() && !self.quit {
            if let Found::Frame(made, used) = find_frame(self.alloc, &self.features, piece)? {
                let next = self.hand_out(made);
                return Ok((used, next));
            }
        }
        let taken = self.feed(piece)?;
        let next = self.next_request();
        Ok((taken, next))
    }

    /// Appends the bytes of a reply, or nothing where its opcode leaves its status unsent. At `Err` nothing is appended.
    pub fn answer(&self, reply: &Reply, out: &mut Vec<u8>) -> Result<(), NoMemory>
        requires { IsSendable self.now.features reply.now }
        ensures ok { OnOk result (out.new.items ≡ out.old.items ++ sent_bytes self.now.features reply.now) }
        ensures err { OnErr result (out.new.items ≡ out.old.items) }
    {
        reply_into(reply, &self.features, out)
    }

    /// How many bytes are held: at most 24 and, once these are there, the body that they announce.
    pub fn rest(&self) -> usize
        ensures held { result ≡ length self.now.held }
        ensures bounded { length self.now.held ≤ room_for self.now.held }
    {
        self.held.len()
    }

    /// How many bytes the memory has that is kept for what is held.
    pub fn reserved(&self) -> usize
        ensures { self.now.held ≡ [] → result ≤ KEPT_LIMIT }
    {
        self.held.capacity()
    }

    /// Gives out what was made of a frame, and forgets what is held.
    fn hand_out(&mut self, made: Made) -> Next
        ensures { HandsOut self.old made self.new result }
    {
        release(&mut self.held);
        match made {
            Made::Passed(request) => Next::Request(request),
            Made::Told {
                reply,
                features,
                quit,
            } => {
                self.features = features;
                self.quit = quit;
                Next::Refused(reply)
            }
        }
    }
}
