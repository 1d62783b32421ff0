// Sets of replacements: what a replacement needs, when a set is closed, the mesh of a set. The words stand in specs/, on raw tables; the
// calls here do nothing and carry theorems about them.
#![tactic(auto)]

ghost use Rattle.sets.specs.Examples.{MeshExamples};
ghost use Rattle.sets.specs.Level.{MeshesAreLevel};

use kinds::Kind;

// Over the mesh of every closed set each facet has the coarse mesh's signed count, and every point off the facets of both meshes is
// covered by as many cells of each; for every kind of cell that keeps its laws.
pub fn meshes_are_level<K: Kind>()
    ensures { MeshesAreLevel K.Kind.shape }
{}

// A small worked hierarchy keeps the rules, and its sets and meshes are as one sees by eye: the words are not empty.
pub fn mesh_examples()
    ensures { MeshExamples }
{}
