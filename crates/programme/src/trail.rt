// Trail: a quiz of three questions, as often as a guest starts it.
// kept: an answer and a touch are `Option`s that each function takes apart by `match`, as the project asks; each arm is a choice of its own.
ghost use Rattle.std.specs.Prelude.{◌≡◌, ◌≤◌, length};
ghost use Rattle.layout.specs.Layout.{max_args};
ghost use Rattle.programme.specs.Verdicts.{Answered, frame};
ghost use Rattle.programme.specs.Trail.{quiz_image, quiz_parsed, question_image, question_parsed, quiz_kind, question_kind, IsKind, asked, points, scored, at_bottom, at_quiz, at_question, trail};
ghost use Rattle.std.proofs.Common.{rules};

use crate::activity::{Activity, ArgumentRecord, call, put};
use crate::choice::{Choice, ProgrammeFault};
use crate::{BOTTOM, Programme, Top, room};
use plain::{Answer, Progress};

// The touch that starts a quiz, and the quiz that it starts.
const START: u8 = 0x53;

const FIRST_QUIZ: QuizArgs = QuizArgs { first: 1, count: 3 };

// How many answers a question offers.
const ANSWERS: u16 = 4;

const QUIZ: u16 = 1;

const QUESTION: u16 = 2;

// What a frame of Trail is.
#[derive(Clone, Copy, PartialEq, Eq, Debug)]
enum Kind {
    Bottom,
    Quiz,
    Question,
}

impl TryFrom<u16> for Kind {
    type Error = ProgrammeFault;

    ghost try_from_gives = { IsKind };

    fn try_from(number: u16) -> Result<Kind, ProgrammeFault> {
        match number {
            BOTTOM => Ok(Kind::Bottom),
            QUIZ => Ok(Kind::Quiz),
            QUESTION => Ok(Kind::Question),
            _ => Err(ProgrammeFault::UnknownKind),
        }
    }
}

// The arguments of a quiz: its first question, and how many it asks.
#[derive(Clone, Copy, PartialEq, Eq, Debug)]
pub struct QuizArgs {
    pub first: u16,
    pub count: u8,
}

impl ArgumentRecord for QuizArgs {
    ghost image = { quiz_image };

    ghost parsed = { quiz_parsed };

    ghost back = { Prim.search rules };

    ghost brief = { Prim.search rules };

    fn write(&self, out: &mut [u8]) -> Result<usize, ProgrammeFault> {
        let [high, low] = self.first.to_be_bytes();
        put([high, low, self.count], out)
    }

    fn read(bytes: &[u8]) -> Option<QuizArgs> {
        let &[high, low, count] = bytes else {
            return None;
        };
        Some(QuizArgs {
            first: u16::from_be_bytes([high, low]),
            count,
        })
    }
}

// The argument of a question: its number.
#[derive(Clone, Copy, PartialEq, Eq, Debug)]
pub struct QuestionArgs {
    pub question: u16,
}

impl ArgumentRecord for QuestionArgs {
    ghost image = { question_image };

    ghost parsed = { question_parsed };

    ghost back = { Prim.search rules };

    ghost brief = { Prim.search rules };

    fn write(&self, out: &mut [u8]) -> Result<usize, ProgrammeFault> {
        put(self.question.to_be_bytes(), out)
    }

    fn read(bytes: &[u8]) -> Option<QuestionArgs> {
        let &[high, low] = bytes else {
            return None;
        };
        Some(QuestionArgs {
            question: u16::from_be_bytes([high, low]),
        })
    }
}

// A quiz asks its questions one after the other, and hands down its points.
pub struct Quiz;

impl Activity for Quiz {
    ghost KIND = { quiz_kind };

    const KIND: u16 = QUIZ;

    type Args = QuizArgs;
}

// A question waits for a touch, and hands down whether it was right.
pub struct Question;

impl Activity for Question {
    ghost KIND = { question_kind };

    const KIND: u16 = QUESTION;

    type Args = QuestionArgs;
}

// The bottom adds up the points handed to it; without an answer, the start touch opens a quiz.
// kept: of the room that it requires see `room`.
fn choose_at_bottom(
    top: &Top<'_>,
    touch: Option<u8>,
    out: &mut [u8],
) -> Result<Choice, ProgrammeFault>
    requires { max_args ≤ length out.old }
    ensures { Answered (at_bottom (frame top.now) touch) out.old result out.new }
{
    if !top.args.is_empty() {
        return Err(ProgrammeFault::WrongArguments);
    }
    match (top.answer, touch) {
        (Some(answer), _) => Ok(Choice::Note(Progress {
            value: top.progress.value.saturating_add(answer.value),
        })),
        (None, Some(START)) => call::<Quiz>(&FIRST_QUIZ, out),
        (None, _) => Ok(Choice::Wait),
    }
}

// What a quiz's progress says: how many questions it asked, and how many points they gave.
// kept: a pair that its callers take apart, since the project asks for one.
fn split(progress: Progress) -> (u8, u8)
    ensures { result ≡ (asked progress, points progress) }
{
    let [.., asked, points] = progress.value.to_be_bytes();
    (asked, points)
}

// The progress of a quiz after one more question, which gave this answer.
fn score(progress: Progress, answer: Answer) -> Progress
    ensures { result ≡ scored progress answer }
{
    let (asked, points) = split(progress);
    let more = u8::from(answer.value > 0);
    let counts = [asked.saturating_add(1), points.saturating_add(more)];
    Progress {
        value: u64::from(u16::from_be_bytes(counts)),
    }
}

// A quiz notes the answer to a question, asks the next one, or gives its points.
// kept: of the room that it requires see `room`.
fn choose_at_quiz(top: &Top<'_>, out: &mut [u8]) -> Result<Choice, ProgrammeFault>
    requires { max_args ≤ length out.old }
    ensures { Answered (at_quiz (frame top.now)) out.old result out.new }
{
    let quiz = QuizArgs::read(top.args).ok_or(ProgrammeFault::WrongArguments)?;
    let (asked, points) = split(top.progress);
    match top.answer {
        Some(answer) => Ok(Choice::Note(score(top.progress, answer))),
        None if asked < quiz.count => {
            let question = quiz.first.wrapping_add(u16::from(asked));
            call::<Question>(&QuestionArgs { question }, out)
        }
        None => Ok(Choice::Give(Answer {
            value: u64::from(points),
        })),
    }
}

// A question gives 1 for the right touch, 0 for another.
fn choose_at_question(
    top: &Top<'_>,
    touch: Option<u8>,
    out: &mut [u8],
) -> Result<Choice, ProgrammeFault>
    ensures { Answered (at_question (frame top.now) touch) out.old result out.new }
{
    let args = QuestionArgs::read(top.args).ok_or(ProgrammeFault::WrongArguments)?;
    match touch {
        Some(touch) => Ok(Choice::Give(Answer {
            value: u64::from(u16::from(touch) == args.question % ANSWERS),
        })),
        None => Ok(Choice::Wait),
    }
}

pub struct Trail;

impl Programme for Trail {
    ghost table = { trail };

    ghost brief = { Prim.search rules };

    fn choose(top: &Top<'_>, touch: Option<u8>, out: &mut [u8]) -> Result<Choice, ProgrammeFault> {
        room(out)?;
        match Kind::try_from(top.kind)? {
            Kind::Bottom => choose_at_bottom(top, touch, out),
            Kind::Quiz => choose_at_quiz(top, out),
            Kind::Question => choose_at_question(top, touch, out),
        }
    }
}
