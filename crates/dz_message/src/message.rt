ghost use Rattle.std.specs.Prelude.{◌≡◌};

use dz_header::{Header, Question};
use dz_record::Rr;
use std::marker::Model;

/// The header, questions and answer records of a message. The records of its authority and additional sections aren't
/// kept.
#[derive(Debug, Drop)]
pub struct Message {
    header: Header,
    questions: Vec<Question>,
    answers: Vec<Rr>,
}

impl Model for Message {
    ghost use Rattle.dz_message.specs.Message.{Content};

    ghost Value = { Content };

    ghost view = { λ m. record {
      header = m.header;
      questions = m.questions.items;
      answers = m.answers.items;
    } };
}

impl Message {
    /// A message with this header, these questions and these answer records.
    pub fn new(header: Header, questions: Vec<Question>, answers: Vec<Rr>) -> Message
        ensures { result ≡ record {
          header = header;
          questions = questions.items;
          answers = answers.items;
        } }
    {
        Message {
            header,
            questions,
            answers,
        }
    }

    /// The header of the message, as it was read or given.
    pub fn header(&self) -> Header
        ensures { result ≡ self.now.header }
    {
        self.header
    }

    /// The questions, in order.
    pub fn questions(&self) -> &[Question]
        ensures { result.now ≡ self.now.questions }
    {
        self.questions.as_slice()
    }

    /// The records of the answer section, in order.
    pub fn answers(&self) -> &[Rr]
        ensures { result.now ≡ self.now.answers }
    {
        self.answers.as_slice()
    }

    /// Turns the message into its answer records.
    pub fn into_answers(self) -> Vec<Rr>
        ensures { result.items ≡ self.answers }
    {
        self.answers
    }
}
