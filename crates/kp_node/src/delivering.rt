//! A message of another node comes.

ghost use Rattle.std.specs.Prelude.{◌≡◌, ◌^◌, ◌<◌, IfOk, OnErr};
ghost use Rattle.kp_raft.specs.declared.mail.Mail.TheVariants as mail_;
ghost use Rattle.kp_step.specs.Choices.{Choices};
ghost use Rattle.kp_node.specs.Delivering.{mail_step};
ghost use Rattle.kp_node.specs.Naming.{mail_of};
ghost use Rattle.kp_node.specs.Parts.{node_of};
ghost use Rattle.kp_node.specs.Steps.{Steps};

use crate::installs::Sending;
use crate::named::Answer;
use crate::node::Node;
use crate::outcome::Outcome;
use kp_model::{Body, NoMemory};
use kp_raft::{AppendMail, Mail};
use kp_snapshot::Image;

impl Node {
    // A message of another node comes. After an error nothing has changed.
    pub(crate) fn deliver(&mut self, now: u64, mail: Mail<Image>) -> Result<Outcome, NoMemory>
        requires { self.old.events < 2 ^ 62 }
        ensures ok { IfOk result (λ o. (ch : Choices) × Steps (mail_step ch (node_of self.old) now mail) self.old self.new o) }
        ensures err { OnErr result (self.new ≡ self.old) }
    {
        match mail {
            Mail::Append(append) => self.deliver_append(now, append),
            Mail::AppendRep {
                term,
                from,
                ok,
                last,
                heard,
            } => self.deliver_answer(
                now,
                Answer {
                    term,
                    from,
                    ok,
                    last,
                    heard,
                },
            ),
            Mail::Install {
                term,
                from,
                index,
                index_term,
                image,
            } => self.install(
                now,
                Sending {
                    term,
                    from,
                    index,
                    index_term,
                    image,
                },
            ),
            Mail::Forward { term, from, body } => self.deliver_body(now, term, from, body),
            plain => self.deliver_plain(now, plain),
        }
    }

    // An append comes. After an error nothing has changed.
    fn deliver_append(&mut self, now: u64, append: AppendMail) -> Result<Outcome, NoMemory>
        requires { self.old.events < 2 ^ 62 }
        ensures ok { IfOk result (λ o. (ch : Choices) × Steps (mail_step ch (node_of self.old) now (mail_.Append append)) self.old self.new o) }
        ensures err { OnErr result (self.new ≡ self.old) }
    {
        let given = self.append(now, &append);
        drop(append);
        given
    }

    // A follower answers an append. After an error nothing has changed.
    fn deliver_answer(&mut self, now: u64, answer: Answer) -> Result<Outcome, NoMemory>
        requires { self.old.events < 2 ^ 62 }
        ensures ok { IfOk result (λ o. (ch : Choices) × Steps (mail_step ch (node_of self.old) now (mail_of answer)) self.old self.new o) }
        ensures err { OnErr result (self.new ≡ self.old) }
    {
        let given = self.answered(now, &answer);
        drop(answer);
        given
    }

    // A body comes that another member sent to the leader: a leader in that term proposes it. After an error nothing has
    // changed.
    fn deliver_body(
        &mut self,
        now: u64,
        term: u64,
        from: u8,
        body: Body,
    ) -> Result<Outcome, NoMemory>
        requires { self.old.events < 2 ^ 62 }
        ensures ok { IfOk result (λ o. (ch : Choices) × Steps (mail_step ch (node_of self.old) now (mail_.Forward term from body)) self.old self.new o) }
        ensures err { OnErr result (self.new ≡ self.old) }
    {
        if self.may_propose(term, from) {
            return self.forwarded(now, term, from, body);
        }
        self.deliver_plain(now, Mail::Forward { term, from, body })
    }
}
