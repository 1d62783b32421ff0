// Examples of each kind: the call does nothing, and what it ensures is computed when it is proved.
ghost use Rattle.kinds.specs.Examples.{TriangleExamples, SegmentExamples};

pub fn kind_examples()
    ensures triangle { TriangleExamples }
    ensures segment { SegmentExamples }
{}
