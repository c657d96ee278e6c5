// What holds of the names of every run.
ghost use Rattle.std.specs.Prelude.{◌≡◌, ◌≢◌, ℕ};
ghost use Rattle.options.specs.declared.plan.Plan.{Plan};
ghost use Rattle.options.specs.Plans.{IsPlan};
ghost use Rattle.options.specs.Frames.{IsFrame, picture_name, state_name};

/// Different frames of a run have pictures and state files of different names, and no state file is named as a picture.
#[tactic(auto, using(crate::proofs::Different::same_picture, crate::proofs::Different::same_state, crate::proofs::Different::state_apart))]
pub fn names_differ()
    ensures pictures { (plan : Plan) (frame other : ℕ) → IsPlan plan → IsFrame plan frame → IsFrame plan other → picture_name plan frame ≡ picture_name plan other → frame ≡ other }
    ensures states { (plan : Plan) (frame other : ℕ) → IsPlan plan → IsFrame plan frame → IsFrame plan other → state_name plan frame ≡ state_name plan other → frame ≡ other }
    ensures apart { (plan : Plan) (frame other : ℕ) → IsPlan plan → IsFrame plan frame → IsFrame plan other → state_name plan frame ≢ picture_name plan other }
{}
