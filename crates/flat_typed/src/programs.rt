//! What typing gives for bodies, instances and whole programs, where it gives the like for statements and for values that are taken over.

ghost use Rattle.flat_typed.specs.Bodies.{BodyIsFine};
ghost use Rattle.flat_typed.specs.Instances.{InstancesTell};
ghost use Rattle.flat_typed.specs.Lemmas.{AcceptedIsFlattenable};

/// A body is fine, and keeps its const parameters, where its statements and what it returns are fine.
pub fn body_is_fine()
    ensures { BodyIsFine }
{}

/// Where all functions are fine, the check of a program's instances makes signatures that tell what calls do.
pub fn instances_tell()
    ensures { InstancesTell }
{}

/// Each program that typing accepts is one that flattening can take: its effect is fine, and each wire that must not be dropped is returned,
/// measured or forgotten.
pub fn accepted_is_flattenable()
    ensures { AcceptedIsFlattenable }
{}
