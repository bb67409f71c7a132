//! Writes pictures, one after another.

ghost use Rattle.std.specs.Prelude.{◌≡◌, ◌≢◌, ◌++◌, true, false, OnOk, IfOk, Err, Some, length};
ghost use Rattle.std.specs.Io.KnownBytes.{Appends};
ghost use Rattle.vp_base.specs.Counted.{counted_contents, counted_failures, HasFailed, AppendsPrefix};
ghost use Rattle.vp_base.specs.Image.{i420};
ghost use Rattle.vp_stream.specs.declared.fault.Interruption.{Interruption};
ghost use Rattle.vp_y4m.specs.Text.{picture_text, i420_length};
ghost use Rattle.vp_stream.specs.declared.form.Form.{Form};
ghost use Rattle.vp_stream.specs.Transcode.{unsized, with_picture, with_shown, fits, fits_shown, one_text, shown_text};
ghost use Rattle.vp_stream.specs.Transcode.{first_size, has_size, line_before, text_if};

use crate::fault::Interruption;
use crate::form::Form;
use crate::shown_planes::ShownPlanes;
use std::alloc::{AllocError, Global};
use std::io::Write;
use std::marker::Model;
use std::mem;
use vp_base::{Counted, Dim, Picture};
use vp_decode::Decoder;
use vp_ivf::IvfHead;
use vp_y4m::{write_header, write_picture};

/// Writes pictures in a form. It remembers the first picture's size if the form requires one size for all.
#[derive(Drop)]
pub struct PictureWriter {
    alloc: Global,
    form: Form,
    size: Option<Dim>,
    /// Memory for the pixels of the last picture that was copied to be written. It is used again for the next one of
    /// the same size, and freed where no picture is written.
    text: Vec<u8>,
}

impl Model for PictureWriter {
    ghost use Rattle.std.specs.Prelude.{option_map};
    ghost use Rattle.vp_stream.specs.Transcode.{PictureWriter};

    ghost Value = { PictureWriter };

    ghost view = { λ a. record { form = a.form; size = option_map (λ d. (d.w, d.h)) a.size } };
}

impl PictureWriter {
    /// Creates a writer before its first picture.
    pub(crate) fn new(alloc: Global, form: Form) -> PictureWriter
        ensures { result ≡ unsized form }
    {
        PictureWriter {
            alloc,
            form,
            size: None,
            text: Vec::new(alloc),
        }
    }

    /// Writes the picture that a decoder shows. If it shows none, the memory for the last picture is freed. `head` is
    /// the file's head.
    pub(crate) fn write_shown<W: Write>(
        &mut self,
        head: IvfHead,
        decoder: &Decoder,
        writer: &mut Counted<W>,
    ) -> Result<(), Interruption>
        ensures ok { OnOk result (self.new ≡ with_shown self.old decoder.now.shown) }
        ensures fits { OnOk result (fits_shown self.old decoder.now.shown ≡ true) }
        ensures change { result ≡ Err Interruption.SizeChange → fits_shown self.old decoder.now.shown ≡ false }
        ensures written { OnOk result (Appends (counted_contents W.contents writer.old)
            (counted_contents W.contents writer.new) (shown_text self.old head decoder.now.shown)) }
        ensures prefix { AppendsPrefix (counted_contents W.contents writer.old)
            (counted_contents W.contents writer.new) (shown_text self.old head decoder.now.shown) }
        ensures device { result ≡ Err Interruption.Device →
            HasFailed (counted_failures writer.old) (counted_failures writer.new) }
        ensures quiet { result ≢ Err Interruption.Device →
            counted_failures writer.new ≡ counted_failures writer.old }
    {
        match decoder.picture() {
            Some(picture) => self.write(head, picture, writer),
            None => {
                self.text = Vec::new(self.alloc);
                Ok(())
            }
        }
    }

    // Returns the I420 pixels of a picture, in the memory of those before.
    fn cropped(&mut self, picture: &Picture) -> Result<Vec<u8>, AllocError>
        ensures kept { self.new ≡ self.old }
        ensures pixels { IfOk result (λ v. v.items ≡ i420 picture.now) }
    {
        let mut text = mem::replace(&mut self.text, Vec::new(self.alloc));
        picture.crop_into(self.alloc, &mut text)?;
        Ok(text)
    }

    // Writes a picture.
    fn write<W: Write>(
        &mut self,
        head: IvfHead,
        picture: &Picture,
        writer: &mut Counted<W>,
    ) -> Result<(), Interruption>
        ensures ok { OnOk result (self.new ≡ with_picture self.old picture.now) }
        ensures fits { OnOk result (fits self.old picture.now ≡ true) }
        ensures change { result ≡ Err Interruption.SizeChange → fits self.old picture.now ≡ false }
        ensures written { OnOk result (Appends (counted_contents W.contents writer.old)
            (counted_contents W.contents writer.new) (one_text self.old head picture.now)) }
        ensures prefix { AppendsPrefix (counted_contents W.contents writer.old)
            (counted_contents W.contents writer.new) (one_text self.old head picture.now) }
        ensures device { result ≡ Err Interruption.Device →
            HasFailed (counted_failures writer.old) (counted_failures writer.new) }
        ensures quiet { result ≢ Err Interruption.Device →
            counted_failures writer.new ≡ counted_failures writer.old }
    {
        match self.form {
            Form::I420 => self.write_i420(picture, writer),
            Form::Y4m => {
                let text = self.cropped(picture)?;
                let written = self.write_y4m(head, picture.dim(), &text, writer);
                self.text = text;
                written
            }
        }
    }

    // Writes a picture plane by plane: without a copy, if all columns of its planes are shown.
    fn write_i420<W: Write>(
        &mut self,
        picture: &Picture,
        writer: &mut Counted<W>,
    ) -> Result<(), Interruption>
        ensures kept { self.new ≡ self.old }
        ensures refused { result ≢ Err Interruption.SizeChange }
        ensures written { OnOk result (Appends (counted_contents W.contents writer.old)
            (counted_contents W.contents writer.new) (i420 picture.now)) }
        ensures prefix { AppendsPrefix (counted_contents W.contents writer.old)
            (counted_contents W.contents writer.new) (i420 picture.now) }
        ensures device { result ≡ Err Interruption.Device →
            HasFailed (counted_failures writer.old) (counted_failures writer.new) }
        ensures quiet { result ≢ Err Interruption.Device →
            counted_failures writer.new ≡ counted_failures writer.old }
    {
        if let Some(planes) = ShownPlanes::of(picture) {
            planes.put(writer)?;
            return Ok(());
        }
        let text = self.cropped(picture)?;
        let written = ShownPlanes::cut(picture.dim(), &text).put(writer);
        self.text = text;
        Ok(written?)
    }

    // Writes a picture after its frame line. The first picture is preceded by the file's header line.
    fn write_y4m<W: Write>(
        &mut self,
        head: IvfHead,
        dim: Dim,
        text: &[u8],
        writer: &mut Counted<W>,
    ) -> Result<(), Interruption>
        requires { length text.now ≡ i420_length dim.w dim.h }
        ensures ok { OnOk result (self.new ≡ record self.old { size = first_size Form.Y4m self.old.size dim.w dim.h }) }
        ensures fits { OnOk result (has_size self.old.size dim.w dim.h ≡ true) }
        ensures change { result ≡ Err Interruption.SizeChange → has_size self.old.size dim.w dim.h ≡ false }
        ensures written { OnOk result (Appends (counted_contents W.contents writer.old)
            (counted_contents W.contents writer.new)
            (line_before self.old.size head dim.w dim.h ++ picture_text text.now)) }
        ensures prefix { AppendsPrefix (counted_contents W.contents writer.old)
            (counted_contents W.contents writer.new)
            (line_before self.old.size head dim.w dim.h
            ++ text_if (has_size self.old.size dim.w dim.h) (picture_text text.now)) }
        ensures device { result ≡ Err Interruption.Device →
            HasFailed (counted_failures writer.old) (counted_failures writer.new) }
        ensures quiet { result ≢ Err Interruption.Device →
            counted_failures writer.new ≡ counted_failures writer.old }
    {
        let size = self.open(head, dim, writer)?;
        write_picture(writer, size, text, dim)?;
        Ok(())
    }

    // Returns the size that all pictures must have. The first call takes it from the picture, and writes the file's
    // header line.
    fn open<W: Write>(
        &mut self,
        head: IvfHead,
        dim: Dim,
        writer: &mut Counted<W>,
    ) -> Result<Dim, Interruption>
        ensures ok { OnOk result (self.new ≡ record self.old { size = first_size Form.Y4m self.old.size dim.w dim.h }) }
        ensures size { IfOk result (λ d. Some (d.w, d.h) ≡ first_size Form.Y4m self.old.size dim.w dim.h) }
        ensures refused { result ≢ Err Interruption.SizeChange }
        ensures written { OnOk result (Appends (counted_contents W.contents writer.old)
            (counted_contents W.contents writer.new) (line_before self.old.size head dim.w dim.h)) }
        ensures prefix { AppendsPrefix (counted_contents W.contents writer.old)
            (counted_contents W.contents writer.new) (line_before self.old.size head dim.w dim.h) }
        ensures device { result ≡ Err Interruption.Device →
            HasFailed (counted_failures writer.old) (counted_failures writer.new) }
        ensures quiet { result ≢ Err Interruption.Device →
            counted_failures writer.new ≡ counted_failures writer.old }
    {
        if let Some(size) = self.size {
            return Ok(size);
        }
        write_header(writer, dim, head.rate, head.scale)?;
        self.size = Some(dim);
        Ok(dim)
    }
}
