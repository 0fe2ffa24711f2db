//! Bytes come of a connection that isn't live: its connect request, a word, or what it keeps till it is live.

ghost use Rattle.std.specs.Prelude.{◌≡◌, ◌^◌, ◌<◌, true, false, IfOk, OnOk, OnErr};
ghost use Rattle.std.specs.FinMap as map;
ghost use Rattle.kp_conn.specs.declared.fed.FedEnd.TheVariants as ends;
ghost use Rattle.kp_step.specs.Choices.{Choices};
ghost use Rattle.kp_step.specs.Asking.{is_csnp};
ghost use Rattle.kp_step.specs.Step.{standing_of};
ghost use Rattle.kp_node.specs.ClientFirst.{Starts, with_put, with_unput, with_closed, given_image, word_read};
ghost use Rattle.kp_node.specs.Clients.{client_step};
ghost use Rattle.kp_node.specs.Early.{IsFirstAt, IsWordAt};
ghost use Rattle.kp_node.specs.Facts.{words};
ghost use Rattle.kp_node.specs.Parts.{node_of};
ghost use Rattle.kp_node.specs.Steps.{Steps};
ghost use Rattle.kp_node.specs.Timing.{Compacts};

use crate::changing::idle_among;
use crate::client_events::{Read, gather};
use crate::early::{close_at, put_at, take_early_at, unput_at};
use crate::first_bytes::First;
use crate::joining::ground_at;
use crate::node::Node;
use crate::outcome::Outcome;
use crate::serving::none_handed;
use crate::taking::Taken;
use kp_conn::FedEnd;
use kp_event::{FedWord, Said};
use kp_model::NoMemory;
use kp_raft::RaftOut;
use kp_snapshot::Image;

/// What the bytes of a connection that isn't live are: a word that is to be answered, or what was read.
#[derive(Drop)]
pub(crate) enum Start {
    Word([u8; 4]),
    Read(Read),
}

impl Node {
    // Bytes come of a connection that isn't live or over. After an error nothing has changed.
    pub(crate) fn client_first(
        &mut self,
        now: u64,
        conn: u64,
        bytes: &[u8],
    ) -> Result<Outcome, NoMemory>
        requires events { self.old.events < 2 ^ 62 }
        requires phase { IsFirstAt (map.get self.old.seating.seats conn) }
        ensures ok { IfOk result (λ o. (ch : Choices) × Steps (client_step words ch (node_of self.old) now conn bytes.now) self.old self.new o) }
        ensures err { OnErr result (self.new ≡ self.old) }
    {
        let _commit = self.raft.commit();
        match self.begin(now, conn, bytes)? {
            Start::Read(read) => Ok(self.give_read(read)),
            Start::Word(word) => self.answer_word(now, conn, bytes, word),
        }
    }

    // The connection takes the bytes, unless they are a word. After an error nothing has changed.
    fn begin(&mut self, now: u64, conn: u64, bytes: &[u8]) -> Result<Start, NoMemory>
        requires events { self.old.events < 2 ^ 62 }
        requires phase { IsFirstAt (map.get self.old.seating.seats conn) }
        ensures ok { IfOk result (λ s. Starts now conn bytes.now self.old s self.new) }
        ensures err { OnErr result (self.new ≡ self.old) }
    {
        let _commit = self.raft.commit();
        let ground = ground_at(&self.raft, self.boot, now);
        let idle = idle_among(self.alloc, &self.seats, &[conn])?;
        match take_early_at(
            self.alloc,
            ground,
            &mut self.raft,
            &mut self.storage,
            &mut self.seats,
            conn,
            bytes,
        ) {
            Err(none) => {
                drop(idle);
                Err(none)
            }
            Ok(first) => match first {
                First::Word(word) => {
                    drop(idle);
                    Ok(Start::Word(word))
                }
                First::Taken(taken) => {
                    self.events += 1;
                    Ok(Start::Read(gather(&self.seats, conn, idle, taken)))
                }
            },
        }
    }

    // A new connection asks with this word. After an error nothing has changed.
    fn answer_word(
        &mut self,
        now: u64,
        conn: u64,
        bytes: &[u8],
        word: [u8; 4],
    ) -> Result<Outcome, NoMemory>
        requires events { self.old.events < 2 ^ 62 }
        requires word { IsWordAt self.old.seating conn bytes.now word }
        ensures ok { IfOk result (λ o. (ch : Choices) × Steps (client_step words ch (node_of self.old) now conn bytes.now) self.old self.new o) }
        ensures err { OnErr result (self.new ≡ self.old) }
    {
        let _commit = self.raft.commit();
        let text = self.word_text(word)?;
        let said = if asks_for_image(word) {
            self.say_image(now, conn, bytes, word, text.as_slice())
        } else {
            self.say_word(now, conn, bytes, word, text.as_slice())
        };
        drop(text);
        said
    }

    // A word is answered with this text. After an error nothing has changed.
    fn say_word(
        &mut self,
        now: u64,
        conn: u64,
        bytes: &[u8],
        word: [u8; 4],
        text: &[u8],
    ) -> Result<Outcome, NoMemory>
        requires events { self.old.events < 2 ^ 62 }
        requires word { IsWordAt self.old.seating conn bytes.now word }
        requires plain { is_csnp (ends.Word word) ≡ false }
        requires text { text.now ≡ words (node_of self.old) word }
        ensures ok { IfOk result (λ o. (ch : Choices) × Steps (client_step words ch (node_of self.old) now conn bytes.now) self.old self.new o) }
        ensures err { OnErr result (self.new ≡ self.old) }
    {
        let _last = self.storage.last();
        let _commit = self.raft.commit();
        let idle = idle_among(self.alloc, &self.seats, &[conn])?;
        match self.put_word(conn, text) {
            Err(none) => {
                drop(idle);
                Err(none)
            }
            Ok(()) => {
                self.close_word(conn);
                self.count_event();
                let read = self.read_word(conn, idle, word);
                Ok(self.give_read(read))
            }
        }
    }

    // A word is answered with this text, and the log becomes an image. After an error nothing has changed.
    fn say_image(
        &mut self,
        now: u64,
        conn: u64,
        bytes: &[u8],
        word: [u8; 4],
        text: &[u8],
    ) -> Result<Outcome, NoMemory>
        requires events { self.old.events < 2 ^ 62 }
        requires word { IsWordAt self.old.seating conn bytes.now word }
        requires image { is_csnp (ends.Word word) ≡ true }
        requires text { text.now ≡ words (node_of self.old) word }
        ensures ok { IfOk result (λ o. (ch : Choices) × Steps (client_step words ch (node_of self.old) now conn bytes.now) self.old self.new o) }
        ensures err { OnErr result (self.new ≡ self.old) }
    {
        let _commit = self.raft.commit();
        let idle = idle_among(self.alloc, &self.seats, &[conn])?;
        match self.base_image() {
            Err(none) => {
                drop(idle);
                Err(none)
            }
            Ok(image) => match self.compact_behind(conn, text) {
                Err(none) => {
                    drop(idle);
                    drop(image);
                    Err(none)
                }
                Ok(out) => {
                    self.close_word(conn);
                    let read = self.read_word(conn, idle, word);
                    Ok(self.give_image(read, out, image))
                }
            },
        }
    }

    // A text goes out to the connection, and the last applied entry becomes the base. After an error nothing has changed.
    fn compact_behind(&mut self, conn: u64, text: &[u8]) -> Result<RaftOut<Image>, NoMemory>
        requires events { self.old.events < 2 ^ 62 }
        requires phase { IsFirstAt (map.get self.old.seating.seats conn) }
        ensures ok { IfOk result (λ out. Compacts (with_put text.now self.old conn) out self.new) }
        ensures err { OnErr result (self.new ≡ self.old) }
    {
        self.put_word(conn, text)?;
        match self.compact() {
            Ok(out) => Ok(out),
            Err(none) => {
                self.unput_word(conn);
                Err(none)
            }
        }
    }

    // A text goes out to the connection. Without memory nothing has changed.
    fn put_word(&mut self, conn: u64, text: &[u8]) -> Result<(), NoMemory>
        requires { IsFirstAt (map.get self.old.seating.seats conn) }
        ensures ok { OnOk result (self.new ≡ with_put text.now self.old conn) }
        ensures err { OnErr result (self.new ≡ self.old) }
    {
        put_at(&mut self.seats, conn, text)
    }

    // The last packet to the connection is taken back.
    fn unput_word(&mut self, conn: u64)
        requires { IsFirstAt (map.get self.old.seating.seats conn) }
        ensures { self.new ≡ with_unput self.old conn }
    {
        unput_at(&mut self.seats, conn);
    }

    // The connection ends behind what goes out to it.
    fn close_word(&mut self, conn: u64)
        requires { IsFirstAt (map.get self.old.seating.seats conn) }
        ensures { self.new ≡ with_closed self.old conn }
    {
        close_at(&mut self.seats, conn);
    }

    // What came of a word: nothing was handed in.
    fn read_word(&self, conn: u64, idle: Vec<u64>, word: [u8; 4]) -> Read
        ensures { result ≡ word_read self.now.seating.seats conn idle.items word }
    {
        let taken = Taken {
            handed: none_handed(self.alloc),
            end: FedEnd::Word(word),
        };
        gather(&self.seats, conn, idle, taken)
    }

    // What is given of a word that asks for an image.
    fn give_image(&self, read: Read, out: RaftOut<Image>, image: Option<Image>) -> Outcome
        ensures { result ≡ given_image read out image (standing_of (node_of self.now)) }
    {
        let Read { taken, ready, lost } = read;
        drop(taken);
        let RaftOut {
            image: installed,
            records,
            mail,
            ..
        } = out;
        drop(installed);
        Outcome {
            said: Said::Fed(FedWord::Taken),
            records,
            image,
            mail,
            cut: None,
            lost,
            standing: self.standing(),
            ready,
        }
    }
}

// Whether the word asks for an image.
fn asks_for_image(word: [u8; 4]) -> bool
    ensures { result ≡ is_csnp (ends.Word word) }
{
    matches!(&word, b"csnp")
}
