// What holds of every scene.
ghost use Rattle.std.specs.Prelude.{◌≡◌, ℕ, ℤ, List};
ghost use Rattle.scene_model.specs.declared.scene.Scene.{Scene};
ghost use Rattle.shapes.specs.declared.ray.Ray.{Ray};
ghost use Rattle.finish_shade.specs.Alike.{LookAlike, solids_of};
ghost use Rattle.finish_shade.specs.Shades.{IsShade};

/// In scenes that look alike a ray shows one colour.
#[tactic(auto, using(crate::proofs::AlikeShades::one_shade))]
pub fn one_shade()
    ensures { (a b : Scene) → LookAlike a b → (levels : ℕ) (ray : Ray) (weight : ℤ) (c d : List ℤ) → IsShade (solids_of a) a levels ray weight c → IsShade (solids_of b) b levels ray weight d → c ≡ d }
{}
