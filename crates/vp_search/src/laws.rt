//! Laws of the motion search.

ghost use Rattle.vp_search.specs.Least.{LeastIsOne};
ghost use Rattle.vp_search.specs.Predicted.{WholeIsPredicted};
ghost use Rattle.vp_search.specs.Refined.{RefinedIsOne};

/// A full search has exactly one best vector.
pub fn least_vector_is_one()
    ensures { LeastIsOne }
{}

/// A refinement has exactly one best vector.
pub fn refined_vector_is_one()
    ensures { RefinedIsOne }
{}

/// A vector in whole pixels has the same cost as the same vector in quarter pixels.
pub fn whole_vectors_are_predicted()
    ensures { WholeIsPredicted }
{}
