//! The law of all YUV4MPEG2 files, as the contract of an empty function.

ghost use Rattle.vp_y4m.specs.Laws.{IsHeadReadBack, IsPictureReadBack};

/// What is written is read back: the header of each size within the limits, and each picture.
pub fn written_is_read()
    ensures head { IsHeadReadBack }
    ensures picture { IsPictureReadBack }
{}
