//! What stays as it is in a run.
ghost use Rattle.std.specs.Prelude.{◌≡◌};
ghost use Rattle.rv_sim.specs.Standing.{IsTableOf};
ghost use Rattle.cmm_script.specs.Limits.{HasFewValues};
ghost use Rattle.cmm_run.specs.inside.Loading.{IsLoaded};

use cmm_image::Image;
use cmm_script::Script;
use rv_sim::Decoded;
use std::marker::Model;

/// An image with its code decoded, a script, and the size of the stack in bytes.
pub struct Loaded {
    image: Image,
    script: Script,
    stack: u64,
    table: Decoded,
}

/// In one place, so that whoever lets one go has one call to prove.
impl Drop for Loaded {
    fn drop(self) {
        let Self {
            image: _,
            script: _,
            stack: _,
            table: _,
        } = self;
    }
}

impl Model for Loaded {
    ghost use Rattle.cmm_image_machine.specs.Machine.{Launch};
    ghost use Rattle.cmm_run.specs.inside.Loading.{IsLoaded};

    ghost Value = { Launch };

    ghost view = { λ l. record { image = l.image; script = l.script; stack_size = l.stack } };

    ghost invariant = { λ l. IsLoaded (record { image = l.image; script = l.script; stack_size = l.stack }) l.table };
}

impl Loaded {
    /// An image whose code is this table.
    pub fn new(image: Image, script: Script, stack: u64, table: Decoded) -> Loaded
        requires { IsLoaded (record { image = image; script = script; stack_size = stack }) table }
        ensures { result ≡ record { image = image; script = script; stack_size = stack } }
    {
        Loaded {
            image,
            script,
            stack,
            table,
        }
    }

    /// The instructions of the image's code.
    pub fn table(&self) -> &Decoded
        ensures { IsTableOf self.now.image.code result.now }
    {
        &self.table
    }

    /// The image.
    pub fn image(&self) -> &Image
        ensures { result.now ≡ self.now.image }
    {
        &self.image
    }

    /// The script. Its commands give few values.
    pub fn script(&self) -> &Script
        ensures same { result.now ≡ self.now.script }
        ensures few { HasFewValues self.now.script }
    {
        &self.script
    }

    /// The image, given away.
    pub fn into_image(self) -> Image
        ensures { result ≡ self.image }
    {
        let Self {
            image,
            script: _,
            stack: _,
            table: _,
        } = self;
        image
    }
}
