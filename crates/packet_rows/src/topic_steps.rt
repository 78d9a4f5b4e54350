// Steps about Topic Names, Topic Filters and Client Identifiers (MQTT 1.5.3, 3.1.3.1, 4.7).

ghost use Rattle.std.specs.Prelude.{◌≡◌, ◌≢◌, ◌∷◌, [], IfOk};
ghost use Rattle.topics.specs.Text.{topic_fault, filter_fault, named_topic};
ghost use Rattle.topics.specs.Matching.{is_match};
ghost use Rattle.packet_base.specs.ClientId.{client_fault};
ghost use Rattle.rows.specs.Answers.{yes_or_no};
ghost use Rattle.packet_rows.specs.TopicSteps.{TopicStep, named, taken, unless};

use crate::answers::refused;
use packet_base::ClientId;
use rows::{Field, Fields, StepFault, Tested, only, word, yes_or_no};
use std::alloc::Global;
use topics::{Filter, TopicName, matches};

/// Texts, which no step changes.
#[derive(Drop)]
pub(crate) struct Texts;

impl Tested for Texts {
    ghost use Rattle.packet_rows.specs.TopicSteps.{TopicDoes};

    ghost Does = { λ old step answers new. TopicDoes step answers };

    fn step(&mut self, alloc: Global, step: &Fields) -> Result<Vec<Fields>, StepFault> {
        match step.as_slice() {
            [word, text] => Ok(only(alloc, asked(alloc, word, text)?)?),
            [word, filter, name] => Ok(only(alloc, asked_both(alloc, word, filter, name)?)?),
            _ => Err(StepFault::Form),
        }
    }
}

// Returns the answer to a question about one text.
#[tactic(auto, using(crate::proofs::TopicAnswers::name_step, crate::proofs::TopicAnswers::filter_step, crate::proofs::TopicAnswers::client_step, crate::proofs::TopicAnswers::bare_step))]
fn asked(alloc: Global, word: &Field, text: &Field) -> Result<Fields, StepFault>
    ensures { IfOk result (TopicStep (word.now ∷ text.now ∷ [])) }
{
    let Some(text) = text.as_text() else {
        return Err(StepFault::Form);
    };
    if word.is(b"name") {
        name(alloc, text)
    } else if word.is(b"filter") {
        filter(alloc, text)
    } else if word.is(b"client") {
        client(alloc, text)
    } else if word.is(b"bare") {
        bare(alloc, text)
    } else {
        Err(StepFault::Form)
    }
}

// Returns the answer to a question about a filter and a name.
#[tactic(auto, using(crate::proofs::TopicAnswers::match_step))]
fn asked_both(
    alloc: Global,
    word: &Field,
    filter: &Field,
    name: &Field,
) -> Result<Fields, StepFault>
    ensures { IfOk result (TopicStep (word.now ∷ filter.now ∷ name.now ∷ [])) }
{
    let (Some(filter), Some(name)) = (filter.as_text(), name.as_text()) else {
        return Err(StepFault::Form);
    };
    if word.is(b"match") {
        matched(alloc, filter, name)
    } else {
        Err(StepFault::Form)
    }
}

// Returns whether a text is a Topic Name.
fn name(alloc: Global, text: &str) -> Result<Fields, StepFault>
    ensures { IfOk result (λ answer. answer ≡ taken (topic_fault text.now)) }
{
    match &TopicName::new(alloc, text) {
        Ok(_) => Ok(word(alloc, "taken")?),
        Err(kind) => refused(alloc, *kind),
    }
}

// Returns whether a text is a Topic Filter.
fn filter(alloc: Global, text: &str) -> Result<Fields, StepFault>
    ensures { IfOk result (λ answer. answer ≡ taken (filter_fault text.now)) }
{
    match &Filter::new(alloc, text) {
        Ok(_) => Ok(word(alloc, "taken")?),
        Err(kind) => refused(alloc, *kind),
    }
}

// Returns whether a text is a Client Identifier.
fn client(alloc: Global, text: &str) -> Result<Fields, StepFault>
    ensures { IfOk result (λ answer. answer ≡ taken (client_fault text.now)) }
{
    match &ClientId::new(alloc, text) {
        Ok(_) => Ok(word(alloc, "taken")?),
        Err(kind) => refused(alloc, *kind),
    }
}

// Returns the name that a filter without wildcards is, or that it has one.
fn bare(alloc: Global, text: &str) -> Result<Fields, StepFault>
    ensures { IfOk result (λ answer.
        answer ≡ unless (filter_fault text.now) (named (named_topic text.now))) }
{
    match &Filter::new(alloc, text) {
        Ok(filter) => named(alloc, filter),
        Err(kind) => refused(alloc, *kind),
    }
}

fn named(alloc: Global, filter: &Filter) -> Result<Fields, StepFault>
    ensures { IfOk result (λ answer. answer ≡ named (named_topic filter.now)) }
{
    match &filter.as_topic()? {
        Some(name) => {
            let mut answer = word(alloc, "name")?;
            answer.text(name.as_str())?;
            Ok(answer)
        }
        None => Ok(word(alloc, "none")?),
    }
}

// Returns whether a filter matches a name, or with which number one of them is refused.
fn matched(alloc: Global, filter: &str, name: &str) -> Result<Fields, StepFault>
    ensures { IfOk result (λ answer.
        answer ≡ unless (filter_fault filter.now) (unless (topic_fault name.now)
        (yes_or_no (is_match filter.now name.now)))) }
{
    match &Filter::new(alloc, filter) {
        Ok(filter) => matched_by(alloc, filter, name),
        Err(kind) => refused(alloc, *kind),
    }
}

// Returns whether a filter matches a name, or with which number the name is refused.
fn matched_by(alloc: Global, filter: &Filter, name: &str) -> Result<Fields, StepFault>
    ensures { IfOk result (λ answer.
        answer ≡ unless (topic_fault name.now) (yes_or_no (is_match filter.now name.now))) }
{
    match &TopicName::new(alloc, name) {
        Ok(name) => Ok(yes_or_no(alloc, matches(filter, name))?),
        Err(kind) => refused(alloc, *kind),
    }
}
