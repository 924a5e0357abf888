// The size of a pixel.
ghost use Rattle.model.specs.Questions.{number};
ghost use Rattle.model.specs.Questions as ask;
ghost use Rattle.input_questions.specs.Answers.{OfScale};

// In points.
pub fn physical_pixel_size(pixels_per_point: f32) -> f32
    ensures { OfScale ask.physical_pixel_size pixels_per_point (number result) }
{
    1.0 / pixels_per_point
}

// How imprecise the pointer is taken to be, in points.
pub fn aim_radius(pixels_per_point: f32) -> f32
    ensures { OfScale ask.aim_radius pixels_per_point (number result) }
{
    physical_pixel_size(pixels_per_point)
}
