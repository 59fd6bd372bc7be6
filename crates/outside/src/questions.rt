//! The pauses of questions to servers.

ghost use Rattle.std.specs.Prelude.{◌≡◌, ◌≤◌, ◌↔◌, None, IsTrue};
ghost use Rattle.indexmap.specs.IndexMap.{index_map_len, Updates};
ghost use Rattle.outside.specs.declared.questions.TheConstants.{MOST_QUESTIONS};
ghost use Rattle.outside.specs.Silences.{pause_after, pause_struck, trial_at};
ghost use Rattle.outside.specs.Kept.{Changes};
ghost use Rattle.outside.specs.Pauses.{question_at_eq, known_pause, IsQuestionPaused, RemembersQuestion};

use crate::kept::{Expires, Notes, add};
use crate::pause::Pause;
use crate::server::QuestionAt;

/// The most questions to servers that a worker remembers.
pub const MOST_QUESTIONS: usize = 4_096;

/// The pause of each question to a server that is remembered.
pub type PausedQuestions = Notes<QuestionAt, Pause>;

impl Expires for Pause {
    ghost until = { λ pause. pause.until };

    fn until(&self) -> u64 {
        self.until
    }
}

/// Whether a server is passed over for a question.
pub(crate) fn is_paused(questions: &PausedQuestions, question: &QuestionAt, now: u64) -> bool
    ensures { IsTrue result ↔ IsQuestionPaused question.now now questions.now }
{
    match questions.get(question) {
        Some(pause) => pause.lasts(now),
        None => false,
    }
}

/// Notes that a query begins, which is a trial if its question was paused.
pub(crate) fn begin_trial(questions: &mut PausedQuestions, question: &QuestionAt, now: u64)
    ensures changes { Changes question_at_eq (trial_at now) question.now questions.old questions.new }
    ensures len { index_map_len questions.new ≡ index_map_len questions.old }
{
    let Some(pause) = questions.get_mut(question) else {
        return;
    };
    *pause = pause.trial(now);
}

/// Notes that a query was answered. Its server is not passed over for the question any more.
pub(crate) fn answer(questions: &mut PausedQuestions, question: &QuestionAt)
    ensures updates { Updates question_at_eq questions.old questions.new question.now None }
    ensures len { index_map_len questions.new ≤ index_map_len questions.old }
{
    questions.swap_remove(question);
}

/// What is known of the pause of a question.
fn known(questions: &PausedQuestions, question: &QuestionAt) -> Pause
    ensures { result ≡ known_pause questions.now question.now }
{
    match questions.get(question) {
        Some(pause) => *pause,
        None => Pause::none(),
    }
}

/// Remembers the pause of a question.
fn remember(
    questions: &mut PausedQuestions,
    cursor: &mut usize,
    question: QuestionAt,
    pause: Pause,
    now: u64,
)
    requires { index_map_len questions.old ≤ MOST_QUESTIONS }
    ensures remembers { RemembersQuestion now question pause questions.old questions.new }
    ensures bound { index_map_len questions.new ≤ MOST_QUESTIONS }
{
    if let Some(place) = questions.get_mut(&question) {
        *place = pause;
        return;
    }
    add(questions, cursor, MOST_QUESTIONS, question, pause, now);
}

/// Notes that a query went unanswered. Its server is passed over for the question from now on.
pub(crate) fn miss(
    questions: &mut PausedQuestions,
    cursor: &mut usize,
    question: QuestionAt,
    now: u64,
)
    requires { index_map_len questions.old ≤ MOST_QUESTIONS }
    ensures remembers { RemembersQuestion now question (pause_after (known_pause questions.old question) now) questions.old questions.new }
    ensures bound { index_map_len questions.new ≤ MOST_QUESTIONS }
{
    let pause = known(questions, &question).after(now);
    remember(questions, cursor, question, pause, now);
}

/// Notes that datagrams came in the place of the reply to a query that cannot be it. Its server is passed over for the question from
/// now on.
pub(crate) fn strike(
    questions: &mut PausedQuestions,
    cursor: &mut usize,
    question: QuestionAt,
    now: u64,
)
    requires { index_map_len questions.old ≤ MOST_QUESTIONS }
    ensures remembers { RemembersQuestion now question (pause_struck (known_pause questions.old question) now) questions.old questions.new }
    ensures bound { index_map_len questions.new ≤ MOST_QUESTIONS }
{
    let pause = known(questions, &question).struck(now);
    remember(questions, cursor, question, pause, now);
}
