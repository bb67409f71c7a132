//! Writes pictures, given their pixels, one after another.

ghost use Rattle.std.specs.Prelude.{◌≡◌, ◌≢◌, ◌++◌, true, false, OnOk, IfOk, IfErr, Err, Some, length};
ghost use Rattle.std.specs.Io.KnownBytes.{Appends};
ghost use Rattle.vp_base.specs.Counted.{counted_contents, counted_failures, HasFailed, AppendsPrefix};
ghost use Rattle.vp_y4m.specs.Text.{picture_text, i420_length};
ghost use Rattle.vp_stream.specs.declared.form.Form.{Form};
ghost use Rattle.vp_stream.specs.declared.fault.DecodeFault.{DecodeFault};
ghost use Rattle.vp_stream.specs.Transcode.{unsized, first_size, has_size, line_before, text_if};
ghost use Rattle.vp_frames.specs.Pictures.{with_size, fits_size, pixels_text, IsWriteFault};

use std::io::Write;
use std::marker::Model;
use vp_base::{Counted, Dim, put_all};
use vp_ivf::IvfHead;
use vp_stream::{DecodeFault, Form};
use vp_y4m::{PictureFault, write_header, write_picture};

/// Writes pictures in a form. It remembers the first picture's size if the form requires one size for all.
#[derive(Drop)]
pub struct PictureWriter {
    form: Form,
    size: Option<Dim>,
}

impl Model for PictureWriter {
    ghost use Rattle.std.specs.Prelude.{option_map};
    ghost use Rattle.vp_stream.specs.Transcode.{PictureWriter};

    ghost Value = { PictureWriter };

    ghost view = { λ a. record { form = a.form; size = option_map (λ d. (d.w, d.h)) a.size } };
}

impl PictureWriter {
    /// Creates a writer before its first picture.
    pub(crate) fn new(form: Form) -> PictureWriter
        ensures { result ≡ unsized form }
    {
        PictureWriter { form, size: None }
    }

    /// Writes a picture, given its size in pixels and its I420 pixels. `head` is the file's head.
    pub(crate) fn write<W: Write>(
        &mut self,
        head: IvfHead,
        dim: Dim,
        pixels: &[u8],
        writer: &mut Counted<W>,
    ) -> Result<(), DecodeFault>
        requires { length pixels.now ≡ i420_length dim.w dim.h }
        ensures ok { OnOk result (self.new ≡ with_size self.old dim.w dim.h) }
        ensures fits { OnOk result (fits_size self.old.form self.old.size dim.w dim.h ≡ true) }
        ensures change { result ≡ Err DecodeFault.SizeChange →
            fits_size self.old.form self.old.size dim.w dim.h ≡ false }
        ensures written { OnOk result (Appends (counted_contents W.contents writer.old)
            (counted_contents W.contents writer.new)
            (pixels_text self.old.form self.old.size head dim.w dim.h pixels.now)) }
        ensures prefix { AppendsPrefix (counted_contents W.contents writer.old)
            (counted_contents W.contents writer.new)
            (pixels_text self.old.form self.old.size head dim.w dim.h pixels.now) }
        ensures stops { IfErr result IsWriteFault }
        ensures device { result ≡ Err DecodeFault.Device →
            HasFailed (counted_failures writer.old) (counted_failures writer.new) }
        ensures quiet { result ≢ Err DecodeFault.Device →
            counted_failures writer.new ≡ counted_failures writer.old }
    {
        match self.form {
            Form::I420 => put_all(writer, pixels).map_err(|_| DecodeFault::Device),
            Form::Y4m => self.write_y4m(head, dim, pixels, writer),
        }
    }

    // Writes a picture after its frame line. The first picture is preceded by the file's header line.
    fn write_y4m<W: Write>(
        &mut self,
        head: IvfHead,
        dim: Dim,
        pixels: &[u8],
        writer: &mut Counted<W>,
    ) -> Result<(), DecodeFault>
        requires { length pixels.now ≡ i420_length dim.w dim.h }
        ensures ok { OnOk result (self.new ≡ record self.old { size = first_size Form.Y4m self.old.size dim.w dim.h }) }
        ensures fits { OnOk result (has_size self.old.size dim.w dim.h ≡ true) }
        ensures change { result ≡ Err DecodeFault.SizeChange → has_size self.old.size dim.w dim.h ≡ false }
        ensures written { OnOk result (Appends (counted_contents W.contents writer.old)
            (counted_contents W.contents writer.new)
            (line_before self.old.size head dim.w dim.h ++ picture_text pixels.now)) }
        ensures prefix { AppendsPrefix (counted_contents W.contents writer.old)
            (counted_contents W.contents writer.new)
            (line_before self.old.size head dim.w dim.h
            ++ text_if (has_size self.old.size dim.w dim.h) (picture_text pixels.now)) }
        ensures stops { IfErr result IsWriteFault }
        ensures device { result ≡ Err DecodeFault.Device →
            HasFailed (counted_failures writer.old) (counted_failures writer.new) }
        ensures quiet { result ≢ Err DecodeFault.Device →
            counted_failures writer.new ≡ counted_failures writer.old }
    {
        let size = self.open(head, dim, writer)?;
        match write_picture(writer, size, pixels, dim) {
            Ok(()) => Ok(()),
            Err(PictureFault::SizeChange) => Err(DecodeFault::SizeChange),
            Err(PictureFault::Device) => Err(DecodeFault::Device),
        }
    }

    // Returns the size that all pictures must have. The first call takes it from the picture, and writes the file's
    // header line.
    fn open<W: Write>(
        &mut self,
        head: IvfHead,
        dim: Dim,
        writer: &mut Counted<W>,
    ) -> Result<Dim, DecodeFault>
        ensures ok { OnOk result (self.new ≡ record self.old { size = first_size Form.Y4m self.old.size dim.w dim.h }) }
        ensures size { IfOk result (λ d. Some (d.w, d.h) ≡ first_size Form.Y4m self.old.size dim.w dim.h) }
        ensures refused { IfErr result (λ fault. fault ≡ DecodeFault.Device) }
        ensures written { OnOk result (Appends (counted_contents W.contents writer.old)
            (counted_contents W.contents writer.new) (line_before self.old.size head dim.w dim.h)) }
        ensures prefix { AppendsPrefix (counted_contents W.contents writer.old)
            (counted_contents W.contents writer.new) (line_before self.old.size head dim.w dim.h) }
        ensures device { result ≡ Err DecodeFault.Device →
            HasFailed (counted_failures writer.old) (counted_failures writer.new) }
        ensures quiet { result ≢ Err DecodeFault.Device →
            counted_failures writer.new ≡ counted_failures writer.old }
    {
        if let Some(size) = self.size {
            return Ok(size);
        }
        let Ok(()) = write_header(writer, dim, head.rate, head.scale) else {
            return Err(DecodeFault::Device);
        };
        self.size = Some(dim);
        Ok(dim)
    }
}
