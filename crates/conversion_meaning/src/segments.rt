ghost use Rattle.conversion_meaning.specs.SegmentLaws.{CutKeepsBounds, CutPartsAreAll, CutPartsArePaths, CutPartsAreSpans, CutTouches, SegmentValuesAreOnce, SegmentsAreSome, SegmentsBeginWithThePath, SegmentsHaveValues, SegmentsKeepBounds, SegmentsTouch};

/// The segments of a path touch, from the key's begin to its end.
pub fn cut_touches()
    ensures { CutTouches }
{}

/// Up to the last bound they are the parts between bounds.
pub fn cut_keeps_bounds()
    ensures { CutKeepsBounds }
{}

/// No entry of the path crosses a cut.
pub fn cut_parts_are_paths()
    ensures { CutPartsArePaths }
{}

/// The entries inside the segments are, together, the path.
pub fn cut_parts_are_all()
    ensures { CutPartsAreAll }
{}

/// Each segment is a span, between the ids of the path on its borders.
pub fn cut_parts_are_spans()
    ensures { CutPartsAreSpans }
{}

/// The segments of an answer touch, from the key's begin to its end.
pub fn segments_touch()
    ensures { SegmentsTouch }
{}

/// So there is one.
pub fn segments_are_some()
    ensures { SegmentsAreSome }
{}

/// Up to the last bound they are the parts between bounds.
pub fn segments_keep_bounds()
    ensures { SegmentsKeepBounds }
{}

/// No list of candidates is empty.
pub fn segments_have_values()
    ensures { SegmentsHaveValues }
{}

/// No value comes twice in it.
pub fn segment_values_are_once()
    ensures { SegmentValuesAreOnce }
{}

/// Before any rule a segment's first value is that of the path's part, which no path over its span is before.
pub fn segments_begin_with_the_path()
    ensures { SegmentsBeginWithThePath }
{}
