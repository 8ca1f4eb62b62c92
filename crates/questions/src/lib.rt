// Questions put to a tree of brackets: the place of a position's opening, its next and its previous entry.
#![tactic(auto)]

ghost use Rattle.std.specs.Prelude.{◌≡◌};
ghost use Rattle.refusal.specs.Numbers.{verdict_number};
ghost use Rattle.refusal.specs.Answers.{figures_of};
ghost use Rattle.refusal.specs.Conditions.{question_refusal};
ghost use Rattle.questions.specs.Answers.{place_answer, next_answer, previous_answer};

use openings::select;
use refusal::Refusal;
use suffix::tree_length;

mod openings;

// Refusals 1, 3, 5, 6, 7, 8 of a question: 5 comes between those that the verdict on the tree tests.
#[tactic(auto, using(shape::proofs::Conditions::question_1, shape::proofs::Conditions::question_3, shape::proofs::Conditions::question_5, shape::proofs::Conditions::question_flaw, shape::proofs::Conditions::tree_flaw))]
fn question(n: usize, tree: &[u8], position: usize) -> Result<(), Refusal>
    ensures { verdict_number result ≡ question_refusal n tree.now position }
{
    if n > 1000000 {
        return Err(Refusal::TooLong);
    }
    if tree.len() != tree_length(n) {
        return Err(Refusal::TreeLength);
    }
    if position >= n {
        return Err(Refusal::PositionOutside);
    }
    brackets::verdict_on(n, tree)
}

// The bit place of the opening of a position.
pub fn place_of(n: usize, tree: &[u8], position: usize) -> Result<usize, Refusal>
    ensures { figures_of result ≡ place_answer n tree.now position }
{
    question(n, tree, position)?;
    Ok(select(tree, position))
}

// The next entry of a position: it, and as many more as stand at and below it, half of the bits from its opening to behind its closing.
pub fn next_of(n: usize, tree: &[u8], position: usize) -> Result<usize, Refusal>
    ensures { figures_of result ≡ next_answer n tree.now position }
{
    let place = place_of(n, tree, position)?;
    let end = search::forward(tree, place + 1, 2 * n);
    Ok(position + (end.at - place) / 2)
}

// The previous entry of a position: the position whose bracket encloses it, or n.
pub fn previous_of(n: usize, tree: &[u8], position: usize) -> Result<usize, Refusal>
    ensures { figures_of result ≡ previous_answer n tree.now position }
{
    let place = place_of(n, tree, position)?;
    let start = search::backward(tree, place);
    if start.fell {
        Ok(position - (place - start.at + 1) / 2)
    } else {
        Ok(n)
    }
}
