// Formulas evaluated in degrees and in stages at once: a product over an algebra of one's own.
ghost use Rattle.std.specs.Prelude.{◌≡◌, Err};
ghost use Rattle.frames.specs.Frames.{frame_means};
ghost use Rattle.formulas.specs.Stores.{contents};
ghost use Rattle.heyting.specs.Evaluating.{Evaluated};
ghost use Rattle.heyting.specs.Layers.{product, Pairable};
ghost use Rattle.heyting.specs.declared.refusal.Refusal.TheVariants.{SpanTooLarge};
ghost use Rattle.degrees.specs.Chains.{chain};

use crate::chain::Chain;
use formulas::store::Store;
use frames::frame::Frame;
use heyting::refusal::Refusal;
use layers::product::Product;
use weighing::evaluate::evaluate;
use weighing::valuation::Valuation;

// Writes the value of each stored formula in the product of a chain and a frame.
pub fn evaluate_graded(
    degrees: Chain,
    stages: Frame,
    store: &Store,
    valuation: &Valuation,
    values: &mut [u32],
) -> Result<(), Refusal>
    ensures evaluated { Pairable (chain degrees.degrees) (frame_means stages) → Evaluated (product (chain degrees.degrees) (frame_means stages)) (contents store.now) valuation.now.letters values.old values.new result }
    ensures too_large { (Pairable (chain degrees.degrees) (frame_means stages) → ⊥) → (result ≡ Err SpanTooLarge) × (values.new ≡ values.old) }
{
    let both = Product::new(degrees, stages)?;
    evaluate(store, &both, valuation, values)
}
