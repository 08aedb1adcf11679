// The worked examples, named whole.
#![tactic(auto)]

ghost use Rattle.points.specs.Points.{Points};
ghost use Rattle.points.specs.TextPoints.{TextPoints};

pub fn points_stand()
    ensures { Points }
{}

pub fn text_points_stand()
    ensures { TextPoints }
{}
