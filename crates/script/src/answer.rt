// What a call answers: numbers, or why it has none.
use crate::page::Page;
use numbers::Refusal;

// The numbers behind the code 0.
#[derive(Clone, Copy, Debug, PartialEq, Eq)]
pub enum Answers {
    None,
    One(i64),
    Two(i64, i64),
    Six([i64; 6]),
    Eight([i64; 8]),
}

// Why a call answers no numbers: it is not there, or it is refused with a number of document 01's table.
#[derive(Clone, Copy, Debug, PartialEq, Eq)]
pub enum Failure {
    Unknown,
    Refused(u32),
}

pub type Answer = Result<Answers, Failure>;

impl From<Refusal> for Failure {
    fn from(refusal: Refusal) -> Failure {
        Failure::Refused(refusal.number())
    }
}

// Whether a call of the port that answered this code did what it was asked.
pub fn accepted(code: u32) -> Result<(), Failure> {
    match code {
        0 => Ok(()),
        _ => Err(Failure::Refused(code)),
    }
}

// What a call answers that has a code alone.
pub fn done(code: u32) -> Answer {
    accepted(code)?;
    Ok(Answers::None)
}

// The same with a number.
pub fn one(code: u32, z: i64) -> Answer {
    accepted(code)?;
    Ok(Answers::One(z))
}

// The line `op code answers..`, without its end; `op -1` for a call that is not there.
pub fn put_answer(page: &mut Page, op: i64, answer: Answer) {
    page.first(op);
    match answer {
        Ok(answers) => {
            page.item(0);
            put_answers(page, answers);
        }
        Err(Failure::Refused(code)) => page.item(i64::from(code)),
        Err(Failure::Unknown) => page.item(-1),
    }
}

fn put_answers(page: &mut Page, answers: Answers) {
    match answers {
        Answers::None => (),
        Answers::One(a) => page.item(a),
        Answers::Two(a, b) => page.items(&[a, b]),
        Answers::Six(row) => page.items(&row),
        Answers::Eight(row) => page.items(&row),
    }
}
