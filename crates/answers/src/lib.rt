// Document 01, "Numbers of refusal" and "What crosses the counter": why a call is refused, with the numbers, and the answer. Beside the errors of the Rust's
// poisson.rs, whose strings are numbers here. A check answers `Ok(())` or its refusal.
#![tactic(auto)]

ghost use Rattle.std.specs.Prelude.{◌≡◌};
ghost use Rattle.answers.specs.Answers.{refusal_number, number_of, refused, told};

// Why a call is refused, in the order of checking.
#[derive(Clone, Copy)]
pub enum Refusal {
    PointSlice,
    NoPoints,
    Depth,
    Smoothing,
    ScratchRoom,
    TooFew,
    Flat,
    VertexRoom,
    FaceRoom,
    NoFace,
}

// The answer. Vertices, faces, low and high are those of the mesh that is returned, after trimming.
#[derive(Clone, Copy)]
pub struct Answer {
    pub number: u32,
    pub usable: usize,
    pub vertices: usize,
    pub faces: usize,
    pub level: f32,
    pub low: [f32; 3],
    pub high: [f32; 3],
}

impl Refusal {
    // 01's number.
    pub fn number(self) -> u32
        ensures { result ≡ refusal_number self }
    {
        match self {
            Refusal::NoPoints => 1,
            Refusal::Depth => 2,
            Refusal::Smoothing => 3,
            Refusal::TooFew => 4,
            Refusal::Flat => 5,
            Refusal::NoFace => 6,
            Refusal::PointSlice => 7,
            Refusal::ScratchRoom => 8,
            Refusal::VertexRoom => 9,
            Refusal::FaceRoom => 10,
        }
    }
}

// 01's number of what a check answers: 0 where it accepts.
pub fn number_of(verdict: Result<(), Refusal>) -> u32
    ensures { result ≡ number_of verdict }
{
    match verdict {
        Ok(()) => 0,
        Err(refusal) => refusal.number(),
    }
}

impl Answer {
    // "A refusal has every other answer field zero."
    pub fn refused(verdict: Result<(), Refusal>) -> Answer
        ensures { result ≡ refused verdict }
    {
        Answer {
            number: number_of(verdict),
            usable: 0,
            vertices: 0,
            faces: 0,
            level: 0.0,
            low: [0.0, 0.0, 0.0],
            high: [0.0, 0.0, 0.0],
        }
    }

    // What is answered in the end: the answer of a call that went through, or that of a refusal, whose number stands beside its zeros.
    pub fn told(outcome: Result<Answer, Refusal>) -> Answer
        ensures { result ≡ told outcome }
    {
        match outcome {
            Ok(answer) => answer,
            Err(refusal) => Answer::refused(Err(refusal)),
        }
    }
}
