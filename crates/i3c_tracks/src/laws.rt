ghost use Rattle.i3c_tracks.specs.Laws.{FilesHaveOnePlan};

/// A file has one plan at most: two have the same start, lines before it and blocks.
pub fn files_have_one_plan()
    ensures { FilesHaveOnePlan }
{}
