// What holds of the images of all modules.
ghost use Rattle.cc_image.specs.Images.{WrittenImages};

/// What is written of a module that a file can hold is an image of it.
pub fn written_images()
    ensures { WrittenImages }
{}
